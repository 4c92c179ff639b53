// What follows from the class of a record's counters, and from how far a window reaches: where the window starts after it, whether it is
// counted, and what is missing. No record is looked at here.
ghost use Rattle.std.specs.Prelude.{◌≡◌, ◌≤◌, ◌<◌};
ghost use Rattle.recount_class.specs.Numbers.{number_of, class_number, figure_number, clears_number, start_next, number_test};
ghost use Rattle.recount_class.specs.Reached.{missing_by};

use recount_window::Reach;
use report::figures::Missing;

// The class of a record's counters in the window before it. A record without any has none.
#[derive(Clone, Copy, Debug, Drop, PartialEq, Eq)]
pub enum Class {
    // Their sender count is not the ordinal.
    Mismatch = 0,
    // Both reflector counts are 0, and there is no anchor.
    Zeros = 1,
    // They become the anchor.
    Anchor = 2,
    // A count is 2^31 or more from the anchor's.
    Jump = 3,
    // Their transmit offset was seen before.
    Again = 4,
    // As many offsets were seen as are remembered.
    Exceeded = 5,
    // Their transmit offset is below the highest.
    Reordered = 6,
    Advanced = 7,
}

// What is counted.
#[derive(Clone, Copy, Debug, Drop, PartialEq, Eq)]
pub enum Figure {
    Observations = 0,
    Unavailable = 1,
    Discontinuities = 2,
    Reordered = 3,
}

// Whether the window is empty after a record of this class.
fn clears(class: Option<Class>) -> bool
    ensures { result ≡ clears_number (class_number class) }
{
    match class {
        None => false,
        Some(Class::Mismatch) => false,
        Some(Class::Anchor | Class::Reordered | Class::Advanced) => false,
        Some(Class::Zeros | Class::Jump | Class::Again | Class::Exceeded) => true,
    }
}

// Past record j where its class clears the window: what clears does not become the anchor.
pub fn start_next(class: Option<Class>, start: u32, j: u32) -> u32
    requires { j < 65536 }
    ensures { result ≡ start_next (class_number class) start j }
{
    if clears(class) {
        return j + 1;
    }
    start
}

fn counted(figure: Figure, class: Class) -> bool
    ensures { result ≡ number_test (figure_number figure) (number_of class) }
{
    match figure {
        Figure::Observations => class != Class::Mismatch,
        Figure::Unavailable => {
            (class == Class::Mismatch) | (class == Class::Zeros) | (class == Class::Again)
        }
        Figure::Discontinuities => (class == Class::Jump) | (class == Class::Again),
        Figure::Reordered => class == Class::Reordered,
    }
}

// Whether a record of this class is one that is counted.
pub fn passes(figure: Figure, class: Option<Class>) -> bool
    ensures { result ≡ number_test (figure_number figure) (class_number class) }
{
    match class {
        None => false,
        Some(class) => counted(figure, class),
    }
}

// The packets missing in a window that reaches so far.
pub fn missing_by(r: Reach) -> Missing
    requires { r.above ≤ r.highest }
    ensures { result ≡ missing_by r }
{
    if r.points < 2 {
        return Missing {
            forward: None,
            reverse: None,
        };
    }
    let reverse = Some((r.highest - r.above) as u64);
    if r.received <= r.sender {
        return Missing {
            forward: Some((r.sender - r.received) as u64),
            reverse,
        };
    }
    Missing {
        forward: None,
        reverse,
    }
}
