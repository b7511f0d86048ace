// The packets kept to be sent again: the store for hosts. Its state goes by value, and packing (sending.rt) adds to it.
// Proved: what each call answers and leaves is the flat form of the definition in crates/outstanding.
ghost use Rattle.std.specs.Prelude.{◌≡◌};
ghost use Rattle.outstanding.specs.Outstanding.{store_of, fresh, listing, answering};
ghost use Rattle.flat.specs.Answers.{first_by};
ghost use Rattle.flat.specs.Kept.{listed_of, flat_dropping};

use flat::kept::{Dropped, Listed};
use outstanding::{Outstanding, StoreView, StoreViewMut};

#[unsafe(no_mangle)]
pub extern "C" fn bluefin_outstanding_new() -> Outstanding
    ensures { result ≡ fresh }
{
    Outstanding::new()
}

#[unsafe(no_mangle)]
pub extern "C" fn bluefin_outstanding_list_into(
    o: Outstanding,
    out: &mut [u8],
    numbers: &[u64],
    lengths: &[u32],
    packets: &[u8],
) -> Listed
    ensures { (result, out.new)
        ≡ first_by listed_of (listing (store_of o numbers.now lengths.now packets.now) out.old) }
{
    let store = StoreView {
        state: o,
        numbers,
        lengths,
        packets,
    };
    store.list_into(out).into()
}

#[unsafe(no_mangle)]
pub extern "C" fn bluefin_outstanding_drop_answered(
    o: Outstanding,
    last: u64,
    numbers: &mut [u64],
    lengths: &mut [u32],
    packets: &mut [u8],
) -> Dropped
    ensures { (result, store_of result.outstanding numbers.new lengths.new packets.new)
        ≡ flat_dropping (answering (store_of o numbers.old lengths.old packets.old) last) }
{
    let mut store = StoreViewMut {
        state: o,
        numbers,
        lengths,
        packets,
    };
    let answer = store.drop_answered(last);
    Dropped::new(store.state, answer)
}
