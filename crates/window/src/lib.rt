// Areas marked in a window: bit i of the words stands for file sector lo + i.
#![tactic(auto)]

ghost use Rattle.std.specs.Prelude.{◌≡◌, refl, List, [], ◌∷◌, ◌++◌, Bool, true, false, ◌+◌, ◌-◌, ◌^◌, ◌<◌, min};
ghost use Rattle.format.specs.Areas.{Area, area, if_there};
ghost use Rattle.window.specs.Run.{Run, Counted, done};
ghost use Rattle.window.specs.TakenRuns.{run_more, run_stop, at_window};
ghost use mathlib.Core.Path.{◌∙◌};

// The bit of sector x in a window of `width` sectors from lo on, at the window's edge where x lies outside.
fn clip(x: u64, lo: u64, width: usize) -> usize
    ensures { result ≡ min (x - lo) width }
{
    (x.saturating_sub(lo) as usize).min(width)
}

fn mark_part(words: &mut [u64], lo: u64, first: u64, count: u64) -> bool
    requires { Counted words.old × (first + count < 2 ^ 64) }
    ensures { Run lo words.old (area first count ∷ []) words.new result }
{
    let width = 64 * words.len();
    let from = clip(first, lo, width);
    let end = clip(first + count, lo, width);
    if end <= from {
        return false;
    }
    !marks::mark(&mut *words, from, end - from)
}

// Marks the part of an area that lies in the window. True if a sector of it was marked before; then nothing is changed.
// Most areas of a large file have no part in a window: they cost two comparisons in the caller's loop. Most others lie in it
// whole, and nothing is cut off them.
#[inline(always)]
pub fn mark_area(words: &mut [u64], lo: u64, first: u64, count: u64) -> bool
    requires { Counted words.old × (first + count < 2 ^ 64) }
    ensures { Run lo words.old (area first count ∷ []) words.new result }
{
    if first + count <= lo {
        return false;
    }
    if first <= lo {
        return mark_part(&mut *words, lo, first, count);
    }
    let width = (64 * words.len()) as u64;
    if width <= first - lo {
        return false;
    }
    if count <= width - (first - lo) {
        return !marks::mark(&mut *words, (first - lo) as usize, count as usize);
    }
    mark_part(&mut *words, lo, first, count)
}

// Marks an area that an image may have.
pub fn mark_if(words: &mut [u64], lo: u64, there: bool, first: u64, count: u64) -> bool
    requires { Counted words.old × (there ≡ true → first + count < 2 ^ 64) }
    ensures { Run lo words.old (if_there there (area first count)) words.new result }
{
    if there {
        return mark_area(&mut *words, lo, first, count);
    }
    false
}

// What is handed areas one after another, and says when it takes no more.
pub trait Taker {
    // It takes areas.
    ghost ready: { Self → Type 0 };

    // Given the areas of a list it turns into another, and answers whether it took no more.
    ghost takes: { Self → List Area → Self → Bool → Type 0 };

    fn take(&mut self, first: u64, count: u64) -> bool
        requires { ready self.old × (first + count < 2 ^ 64) }
        ensures { ready self.new × takes self.old (area first count ∷ []) self.new result };

    ghost none: { (a : Self) → takes a [] a false };

    ghost more: { (a b c : Self) (l m : List Area) (r : Bool) → takes a l b false → takes b m c r → takes a (l ++ m) c r };

    ghost stop: { (a b : Self) (l m : List Area) → takes a l b true → takes a (l ++ m) b true };
}

// A window in which areas are marked: what is taken before one met a marked sector.
#[derive(Drop)]
pub struct Marks<'a> {
    pub words: &'a mut [u64],
    pub lo: u64,
}

impl<'a> Taker for Marks<'a> {
    ghost ready = { λ a. Counted a.words.now };

    ghost takes = { λ a l b r. Run a.lo a.words.now l b.words.now r × (b.words.ghost_name ≡ a.words.ghost_name)
        × (b.lo ≡ a.lo) };

    fn take(&mut self, first: u64, count: u64) -> bool {
        mark_area(&mut *self.words, self.lo, first, count)
    }

    ghost none = { λ a. (done, refl, refl) };

    ghost more = { λ a b c l m r f g. (run_more f.0 refl (at_window f.2 g.0), g.1 ∙ f.1, g.2 ∙ f.2) };

    ghost stop = { λ a b l m f. (run_stop m f.0 refl, f.1, f.2) };
}
