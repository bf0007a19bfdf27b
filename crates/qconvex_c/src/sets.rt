//! Sets of points in one list, one after the other.
ghost use Rattle.std.specs.Prelude.{◌≡◌, ◌<◌, ◌↔◌, ◌+◌, ◌*◌, ◌-◌, IsTrue, length, slice_index};
ghost use Rattle.qconvex_c.specs.contract.Sets.{AreStarts, HaveRoom};

/// A set: its number, and the positions at which its points begin and end.
#[derive(Clone, Copy)]
pub struct Set {
    pub number: usize,
    pub begin: usize,
    pub end: usize,
}

/// The available room: the number of answers, and the length of each buffer.
#[derive(Clone, Copy)]
pub struct Rooms {
    pub answers: usize,
    pub extremes: usize,
    pub offsets: usize,
    pub corners: usize,
}

/// Returns true if there is at least one start, the starts rise, and none exceeds the number of points.
pub fn are_starts(starts: &[usize], count: usize) -> bool
    ensures { IsTrue result ↔ AreStarts count starts.now }
{
    let mut last = 0usize;
    for start in starts {
        if *start < last || *start > count {
            return false;
        }
        last = *start;
    }
    !starts.is_empty()
}

/// Returns true if there is room for the hull of each set by Euler's formula: one part for each set in each buffer.
pub fn have_room(starts: &[usize], rooms: Rooms) -> bool
    requires { 0 < length starts.now }
    ensures { IsTrue result ↔ HaveRoom starts.now rooms.answers rooms.extremes rooms.offsets rooms.corners }
{
    let sets = starts.len() - 1;
    let (end, parts) = (starts[sets] as u128, sets as u128);
    let answers = sets <= rooms.answers;
    let extremes = end <= rooms.extremes as u128;
    let offsets = 2 * end + 2 * parts <= rooms.offsets as u128;
    let corners = 6 * end + 4 * parts <= rooms.corners as u128;
    answers && extremes && offsets && corners
}

/// Returns the set with this number.
pub fn set_at(starts: &[usize], number: usize) -> Set
    requires { number + 1 < length starts.now }
    ensures { result ≡ record { number = number; begin = slice_index starts.now number; end = slice_index starts.now (number + 1) } }
{
    Set {
        number,
        begin: starts[number],
        end: starts[number + 1],
    }
}
