// utils/window.rs: the numbers that were acked and are not yet consumed, rising, in the first cells of a lent slice
// (document 01, "From acks to the window").
// Proved: each call says what the definition says, and leaves the window and the cells as it does, for every window and every content of the cells;
// and after the test of 12 the loops of an insert pay for every pass out of two for each number held and two for each in its range (document 02 §4).
#![tactic(auto)]

ghost use Rattle.std.specs.Prelude.{◌≡◌, true, ◌+◌, ◌-◌, ◌≤◌, ◌<◌, length, drop};
ghost use Rattle.std.proofs.Math.Seq.{paste};
ghost use Rattle.refusal.specs.Said.{says};
ghost use Rattle.lists.specs.Numbers.{largest};
ghost use Rattle.lists.specs.Rising.{rising};
ghost use Rattle.window.specs.Window.{expected, window, held, holdable, well_formed, place, numbers, before_held, run_length, Rises};
ghost use Rattle.window.specs.Window.{store_run, insert_packet_number, insert_range, consume};
ghost use Rattle.window.specs.View.{SameLent, run_in};
ghost use Rattle.window.specs.Passes.{passes_allowed, place_passes, first_held_passes, passes_made};

use lists::LARGEST;
use refusal::Refusal;

// How far from the smallest expected number on a number may be held.
pub const MAX_SLIDING_WINDOW_SIZE: u64 = 40000;

#[repr(C)]
#[derive(Clone, Copy, Debug, PartialEq, Eq, Default)]
pub struct SlidingWindow {
    pub smallest_expected: u64,
    pub count: usize,
}

// The window and the cells lent to it, of which the first `count` hold its numbers.
#[derive(Clone, Copy)]
pub struct WindowView<'a> {
    pub state: SlidingWindow,
    pub cells: &'a [u64],
}

// The same to change.
#[derive(Drop)]
pub struct WindowViewMut<'a> {
    pub state: SlidingWindow,
    pub cells: &'a mut [u64],
}

// An unbroken run that was consumed: its last number, and how many numbers it had.
#[derive(Clone, Copy, Debug, PartialEq, Eq)]
pub struct Run {
    pub last: u64,
    pub length: u64,
}

impl SlidingWindow {
    // utils/window.rs, SlidingWindow::new. The cells may hold anything.
    pub fn new(smallest_expected: u64) -> Self
        ensures { result ≡ window smallest_expected 0 }
    {
        Self {
            smallest_expected,
            count: 0,
        }
    }

    fn is_holdable(self, n: u64) -> bool
        ensures { result ≡ holdable self n }
    {
        n >= self.smallest_expected
            && n - self.smallest_expected < MAX_SLIDING_WINDOW_SIZE
            && n < LARGEST
    }
}

impl WindowView<'_> {
    // Refusal 12's test. Rising numbers need it at their ends only.
    #[tactic(auto, using(crate::proofs::Loops::holdable_at_ends), unfolding(crate::specs::Window::well_formed, crate::specs::Window::all_holdable))]
    pub fn well_formed(&self) -> bool
        ensures { result ≡ well_formed self.now.state self.now.cells.now }
    {
        let count = self.state.count;
        if count > self.cells.len() || !lists::is_rising(&self.cells[..count]) {
            return false;
        }
        count == 0
            || self.state.is_holdable(self.cells[0])
                && self.state.is_holdable(self.cells[count - 1])
    }
}

impl WindowViewMut<'_> {
    pub fn view(&self) -> WindowView<'_>
        ensures { (result.state ≡ self.now.state) × (result.cells.now ≡ self.now.cells.now) }
    {
        WindowView {
            state: self.state,
            cells: self.cells,
        }
    }

    // Refusal 12's test.
    pub fn well_formed(&self) -> bool
        ensures { result ≡ well_formed self.now.state self.now.cells.now }
    {
        self.view().well_formed()
    }

    fn held(&self) -> &[u64]
        requires { self.now.state.count ≤ length self.now.cells.now }
        ensures numbers { result.now ≡ held self.now.state self.now.cells.now }
        ensures len { length result.now ≡ self.now.state.count }
    {
        &self.cells[..self.state.count]
    }

    // utils/window.rs, SlidingWindow::insert_packet_number.
    #[tactic(auto, unfolding(crate::specs::Window::insert_packet_number))]
    pub fn insert_packet_number(&mut self, n: u64) -> Result<(), Refusal>
        ensures lent { SameLent self.old self.new }
        ensures outcome { (says (λ x. x) result, self.new.state, self.new.cells.now) ≡ insert_packet_number self.old.state self.old.cells.now n }
    {
        if !self.well_formed() {
            return Err(Refusal::Malformed);
        }
        self.insert_packet_number_unchecked(n)
    }

    // `insert_packet_number` for a caller that has proved the window well formed.
    #[tactic(auto, using(crate::proofs::Rises::few, std::proofs::lemmas::Bool::Decides::nat_tests), unfolding(crate::specs::Window::insert_packet_number))]
    pub fn insert_packet_number_unchecked(&mut self, n: u64) -> Result<(), Refusal>
        requires { well_formed self.old.state self.old.cells.now ≡ true }
        ensures lent { SameLent self.old self.new }
        ensures outcome { (says (λ x. x) result, self.new.state, self.new.cells.now) ≡ insert_packet_number self.old.state self.old.cells.now n }
    {
        let SlidingWindow {
            smallest_expected,
            count,
        } = self.state;
        if n < smallest_expected {
            return Err(Refusal::Below);
        }
        if n - smallest_expected >= MAX_SLIDING_WINDOW_SIZE {
            return Err(Refusal::Beyond);
        }
        if n == LARGEST {
            return Err(Refusal::Exhausted);
        }
        // What document 02 §4 allows a range of one.
        let mut budget = 2 * count + 2;
        self.store_run(n, 1, &mut budget)
    }

    // utils/window.rs, SlidingWindow::insert_range. Where a number of the range is already held, those before it are stored.
    #[tactic(auto, unfolding(crate::specs::Window::insert_range))]
    pub fn insert_range(&mut self, base: u64, count: u16) -> Result<(), Refusal>
        ensures lent { SameLent self.old self.new }
        ensures outcome { (says (λ x. x) result, self.new.state, self.new.cells.now) ≡ insert_range self.old.state self.old.cells.now base count }
    {
        if !self.well_formed() {
            return Err(Refusal::Malformed);
        }
        self.insert_range_unchecked(base, count)
    }

    // `insert_range` for a caller that has proved the window well formed.
    #[tactic(auto, using(crate::proofs::Rises::few, std::proofs::lemmas::Bool::Decides::nat_tests), unfolding(crate::specs::Window::insert_range))]
    pub fn insert_range_unchecked(&mut self, base: u64, count: u16) -> Result<(), Refusal>
        requires { well_formed self.old.state self.old.cells.now ≡ true }
        ensures lent { SameLent self.old self.new }
        ensures outcome { (says (λ x. x) result, self.new.state, self.new.cells.now) ≡ insert_range self.old.state self.old.cells.now base count }
    {
        if count == 0 {
            return Ok(());
        }
        if base < self.state.smallest_expected {
            return Err(Refusal::Below);
        }
        if base > LARGEST - u64::from(count) {
            return Err(Refusal::Exhausted);
        }
        let last = base + u64::from(count) - 1;
        if last - self.state.smallest_expected >= MAX_SLIDING_WINDOW_SIZE {
            return Err(Refusal::Beyond);
        }
        let range = usize::from(count);
        // "at most two passes for each number held and two for each in the range" (document 02 §4)
        let mut budget = 2 * self.state.count + 2 * range;
        self.store_run(base, range, &mut budget)
    }

    // Stores those of the run's numbers, from base on, that stand before the first already held. All loops of an insert are here:
    // the place, the first held, the move and the writing, and they pay out of one budget. Short enough that the compiler puts it into both its
    // callers, where the budget stays out of memory: in memory it takes 330 ns to write 200 numbers, and not 60.
    #[tactic(auto, using(crate::proofs::Rises::held_fits, crate::proofs::Rises::held_rises))]
    fn store_run(&mut self, base: u64, range: usize, budget: &mut usize) -> Result<(), Refusal>
        requires good { (well_formed self.old.state self.old.cells.now ≡ true) × (0 < range) × (base + range ≤ largest) }
        requires allowed { budget.old ≡ passes_allowed self.old.state.count range }
        ensures lent { SameLent self.old self.new }
        ensures outcome { (says (λ x. x) result, self.new.state, self.new.cells.now) ≡ store_run self.old.state self.old.cells.now base range }
        ensures paid { budget.old ≡ budget.new + passes_made self.old.state self.old.cells.now base range }
    {
        let SlidingWindow { count, .. } = self.state;
        let held = self.held();
        let at = find_place(held, base, budget);
        let k = first_held(held, at, base, range, budget);
        if k == 0 {
            return Err(Refusal::AlreadyHeld);
        }
        if k > self.cells.len() - count {
            return Err(Refusal::BufferShort);
        }
        shift_up(self.cells, at, count, k, budget);
        fill(&mut self.cells[at..at + k], base, budget);
        self.state.count = count + k;
        if k < range {
            return Err(Refusal::AlreadyHeld);
        }
        Ok(())
    }

    // utils/window.rs, SlidingWindow::consume.
    #[tactic(auto, unfolding(crate::specs::Window::consume))]
    pub fn consume(&mut self) -> Result<Option<Run>, Refusal>
        ensures lent { SameLent self.old self.new }
        ensures outcome { (says run_in result, self.new.state, self.new.cells.now) ≡ consume self.old.state self.old.cells.now }
    {
        if !self.well_formed() {
            return Err(Refusal::Malformed);
        }
        self.consume_unchecked()
    }

    // `consume` for a caller that has proved the window well formed.
    #[tactic(auto, using(crate::proofs::Rises::held_fits, crate::proofs::Rises::held_rises), unfolding(crate::specs::Window::consume))]
    pub fn consume_unchecked(&mut self) -> Result<Option<Run>, Refusal>
        requires { well_formed self.old.state self.old.cells.now ≡ true }
        ensures lent { SameLent self.old self.new }
        ensures outcome { (says run_in result, self.new.state, self.new.cells.now) ≡ consume self.old.state self.old.cells.now }
    {
        let SlidingWindow {
            smallest_expected,
            count,
        } = self.state;
        let k = run_length(self.held(), smallest_expected);
        if k == 0 {
            return Ok(None);
        }
        let rest = count - k;
        self.cells.copy_within(k..count, 0);
        self.cells[rest..count].fill(0);
        let length = k as u64;
        let next = smallest_expected + length;
        self.state = SlidingWindow {
            smallest_expected: next,
            count: rest,
        };
        Ok(Some(Run {
            last: next - 1,
            length,
        }))
    }
}

// The four loops of an insert, written out where a call of the library would do, since each turn, before anything else, pays 1 out of the budget
// of passes lent to it (document 02 §4). Nothing tests what is left: that 1 can be taken off is proved at each of these lines, and so the budget
// never runs out.

// Where n stands, or would stand. From the back, as acks come mostly in order; by a range that goes up, of which a turn takes four instructions, and a
// reversed one's seven.
#[tactic(auto, using(crate::proofs::Loops::place_behind, crate::proofs::Loops::place_before), unfolding(crate::specs::Window::place))]
fn find_place(held: &[u64], n: u64, budget: &mut usize) -> usize
    requires rises { Rises 0 largest held.now }
    requires allowed { length held.now ≤ budget.old }
    ensures value { (result ≡ place n held.now) × (result ≤ length held.now) }
    ensures paid { budget.old ≡ budget.new + place_passes (length held.now) result }
{
    for behind in 0..held.len() {
        *budget -= 1;
        let at = held.len() - behind;
        if held[at - 1] < n {
            return at;
        }
    }
    0
}

// How many of the range's numbers, from base on, stand before the first that is held; `at` is base's place.
// As the numbers rise, the first held one can stand nowhere but there; the largest number, which no range has, stands for none. How far it is from
// base is known before the loop, so that the compiler knows where the loop ends.
fn first_held(held: &[u64], at: usize, base: u64, range: usize, budget: &mut usize) -> usize
    requires rises { Rises 0 largest held.now }
    requires place { at ≡ place base held.now }
    requires fits { (0 < range) × (base + range ≤ largest) }
    requires allowed { range ≤ budget.old }
    ensures value { (result ≡ before_held base range held.now) × (result ≤ range) }
    ensures paid { budget.old ≡ budget.new + first_held_passes range result }
{
    let next = held.get(at).copied().unwrap_or(LARGEST);
    let distance = next - base;
    for i in 0..range {
        *budget -= 1;
        if i as u64 == distance {
            return i;
        }
    }
    range
}

// Moves the cells from `from` to count up by k.
#[tactic(auto, using(lists::proofs::Shift::shift_up))]
fn shift_up(cells: &mut [u64], from: usize, count: usize, k: usize, budget: &mut usize)
    requires fits { (from ≤ count) × (count + k ≤ length cells.old) }
    requires allowed { count - from ≤ budget.old }
    ensures cells_after { cells.new ≡ paste cells.old (from + k) (drop from cells.old) (count - from) }
    ensures paid { budget.old ≡ budget.new + (count - from) }
{
    for i in (from..count).rev() {
        *budget -= 1;
        cells[i + k] = cells[i];
    }
}

// Writes base, base + 1 and so on. The number counts up beside the cells: eight instructions for four of them, where `base + i` took ten.
fn fill(cells: &mut [u64], base: u64, budget: &mut usize)
    requires fits { base + length cells.old ≤ largest }
    requires allowed { length cells.old ≤ budget.old }
    ensures cells_after { cells.new ≡ numbers base (length cells.old) }
    ensures paid { budget.old ≡ budget.new + length cells.old }
{
    let mut number = base;
    for cell in cells.iter_mut() {
        *budget -= 1;
        *cell = number;
        number += 1;
    }
}

// How many numbers are held in an unbroken run from the smallest expected on. No chain over the numbers from it on: of the one behind the last a chain cannot
// be told that it fits.
#[tactic(auto, using(crate::proofs::Loops::run_at), unfolding(crate::specs::Window::run_length))]
fn run_length(held: &[u64], expected: u64) -> usize
    requires { Rises expected largest held.now }
    ensures { (result ≡ run_length expected held.now) × (result ≤ length held.now) }
{
    for (k, n) in held.iter().enumerate() {
        if *n != expected + k as u64 {
            return k;
        }
    }
    held.len()
}
