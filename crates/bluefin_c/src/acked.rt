// The window of acked numbers: utils/window.rs for hosts.
// Proved: what each call answers and leaves is the flat form of the definition in crates/window.
ghost use Rattle.std.specs.Prelude.{◌≡◌};
ghost use Rattle.window.specs.Window.{window as window_of, insert_packet_number, insert_range, consume as consuming};
ghost use Rattle.flat.specs.Acked.{inserted_of, run_of, flat_outcome};

use flat::acked::{Inserted, Run};
use window::{SlidingWindow, WindowViewMut};

#[unsafe(no_mangle)]
pub extern "C" fn bluefin_window_new(smallest_expected: u64) -> SlidingWindow
    ensures { result ≡ window_of smallest_expected 0 }
{
    SlidingWindow::new(smallest_expected)
}

#[unsafe(no_mangle)]
pub extern "C" fn bluefin_window_insert_packet_number(
    w: SlidingWindow,
    cells: &mut [u64],
    n: u64,
) -> Inserted
    ensures { (result, cells.new) ≡ flat_outcome inserted_of (insert_packet_number w cells.old n) }
{
    let mut window = WindowViewMut { state: w, cells };
    let answer = window.insert_packet_number(n);
    Inserted::new(window.state, answer)
}

#[unsafe(no_mangle)]
pub extern "C" fn bluefin_window_insert_range(
    w: SlidingWindow,
    cells: &mut [u64],
    base: u64,
    count: u16,
) -> Inserted
    ensures { (result, cells.new) ≡ flat_outcome inserted_of (insert_range w cells.old base count) }
{
    let mut window = WindowViewMut { state: w, cells };
    let answer = window.insert_range(base, count);
    Inserted::new(window.state, answer)
}

#[unsafe(no_mangle)]
pub extern "C" fn bluefin_window_consume(w: SlidingWindow, cells: &mut [u64]) -> Run
    ensures { (result, cells.new)
        ≡ flat_outcome run_of (consuming w cells.old) }
{
    let mut window = WindowViewMut { state: w, cells };
    let answer = window.consume();
    Run::new(window.state, answer)
}
