//! Builds points from the words read so far.
ghost use Rattle.std.specs.Prelude.{◌≡◌, ◌≤◌, ◌+◌, ◌*◌, [], true, false, vec_len};
ghost use Rattle.qh_read.specs.contract.Progress as progress;
ghost use Rattle.qh_read.specs.contract.Tokens.{is_keyword};
ghost use Rattle.qh_read.specs.steps.Stages.{stage_shown, HasTextFault, is_header, pending_count};

use crate::coordinate::Coordinate;
use crate::cursor::Cursor;
use crate::token::Token;
use qh_model::{COORDINATE_LIMIT, Form, POINT_LIMIT, Point, ReadFault};
use std::alloc::{AllocError, Global};

/// How words after the last coordinate are treated.
#[derive(Clone, Copy, Debug, PartialEq, Eq)]
pub enum Trailing {
    /// A fault, in a point file.
    Refused,
    /// Ignored, in an OFF file, where the faces follow.
    Ignored,
}

/// The kind of the next word.
#[derive(Clone, Copy, Debug, PartialEq, Eq)]
pub enum Stage {
    /// The first number of the header.
    First,
    /// The second number of the header, after this one.
    Second(i32),
    /// A coordinate of a point, with the number of coordinates still to come; a trailing word if that number is 0.
    Coordinates(u32, Trailing),
    /// The keyword of an OFF file.
    Keyword,
    /// The number of vertices.
    VertexCount,
    /// The number of faces, after this number of vertices.
    FaceCount(i32),
    /// The number of edges, after this number of vertices.
    EdgeCount(i32),
    /// Any word: the text already has this fault.
    Failed(ReadFault),
}

/// The coordinates of the next point so far.
#[derive(Clone, Copy, Debug)]
pub enum Pending {
    Zero,
    One(Coordinate),
    Two(Coordinate, Coordinate),
}

/// The points so far, and the kind of the next word.
#[derive(Drop)]
pub struct Builder {
    pub stage: Stage,
    pub points: Vec<Point>,
    pub pending: Pending,
    ghost fresh: { is_header stage ≡ true → 3 * vec_len points + pending_count pending ≡ 0 },
    ghost text_fault: { HasTextFault stage },
}

/// Returns the stage after a header with this count.
fn counted(count: i32, trailing: Trailing) -> Stage
    ensures shown { stage_shown result [] ≡ progress.counted trailing count }
    ensures text_fault { HasTextFault result }
{
    if count >= 1 && count <= POINT_LIMIT as i32 {
        Stage::Coordinates(3 * count as u32, trailing)
    } else {
        Stage::Failed(ReadFault::Count)
    }
}

/// Returns the stage after a header of these two numbers.
fn headed(first: i32, second: i32) -> Stage
    ensures shown { stage_shown result [] ≡ progress.headed first second }
    ensures text_fault { HasTextFault result }
{
    if first == 3 {
        counted(second, Trailing::Refused)
    } else if second == 3 {
        counted(first, Trailing::Refused)
    } else {
        Stage::Failed(ReadFault::NotThree)
    }
}

/// Returns the stage after the first word of an OFF file.
fn after_keyword(token: Token) -> Stage
    ensures keyword { is_keyword token ≡ true → result ≡ Stage.VertexCount }
    ensures other { is_keyword token ≡ false → result ≡ Stage.Failed ReadFault.NotOff }
{
    if token.is_keyword() {
        Stage::VertexCount
    } else {
        Stage::Failed(ReadFault::NotOff)
    }
}

impl Builder {
    ghost use Rattle.std.specs.Prelude.{◌≡◌, ◌≤◌, ◌<◌, ◌+◌, ◌*◌, ◌++◌, [], ◌∷◌, ℕ, Some, OnOk, IfOk, IfErr, IfSome, length, vec_len, vec_capacity};
    ghost use Rattle.qh_read.specs.contract.{ReadFaults.IsTextFault, Tokens.is_keyword, Tokens.value_of};
    ghost use Rattle.qh_read.specs.steps.Building.{shown, taken, taken_count, lack, AreAll};
    ghost use Rattle.qh_read.specs.steps.{Cursors.IsOn, Cursors.held_from, Numbers.AwaitsPoints, SmallTokens.IsSmall};
    ghost use Rattle.qh_model.specs.{declared.form.Form.Form, headline.PointFile.coordinates};

    /// Creates a builder that has read nothing yet.
    pub fn new(alloc: Global, form: Form) -> Builder
        ensures shown { shown result ≡ progress.started form }
        ensures count { taken_count result ≡ 0 }
    {
        Builder {
            stage: match form {
                Form::Qhull => Stage::First,
                Form::Off => Stage::Keyword,
            },
            points: Vec::new(alloc),
            pending: Pending::Zero,
        }
    }

    /// Reserves room for more points. Nothing else changes.
    pub fn reserve(&mut self, points: usize) -> Result<(), AllocError>
        ensures shown { shown self.new ≡ shown self.old }
        ensures count { taken_count self.new ≡ taken_count self.old }
        ensures room { OnOk result
            (vec_len self.new.points + points ≤ vec_capacity self.new.points) }
        ensures kept { vec_capacity self.old.points ≤ vec_capacity self.new.points }
    {
        self.points.reserve(points)
    }

    /// Adds a coordinate. If it completes a point, there is room for that point.
    fn push(&mut self, coordinate: Coordinate)
        requires room { taken_count self.old < 3 * vec_capacity self.old.points + 2 }
        requires after_header { is_header self.old.stage ≡ false }
        ensures taken { taken self.new ≡ taken self.old ++ coordinate.value ∷ [] }
        ensures count { taken_count self.new ≡ taken_count self.old + 1 }
        ensures stage { self.new.stage ≡ self.old.stage }
        ensures kept { vec_capacity self.old.points ≤ vec_capacity self.new.points }
    {
        match self.pending {
            Pending::Zero => self.pending = Pending::One(coordinate),
            Pending::One(x) => self.pending = Pending::Two(x, coordinate),
            Pending::Two(x, y) => {
                let point = Point::new(x.value, y.value, coordinate.value);
                self.points.push_reserved(point);
                self.pending = Pending::Zero;
            }
        }
    }

    /// Adds a coordinate if it is in range, and enters the given stage.
    fn coordinate(&mut self, next: Stage, value: i32, line: u32)
        requires room { taken_count self.old < 3 * vec_capacity self.old.points + 2 }
        requires after_header { is_header self.old.stage ≡ false }
        requires next { is_header next ≡ false }
        requires next_fault { HasTextFault next }
        ensures shown { shown self.new
            ≡ progress.took (stage_shown next) (taken self.old) line value }
        ensures count { taken_count self.new ≤ taken_count self.old + 1 }
        ensures kept { vec_capacity self.old.points ≤ vec_capacity self.new.points }
    {
        if value.unsigned_abs() > COORDINATE_LIMIT {
            self.stage = Stage::Failed(ReadFault::Range(line));
        } else {
            self.push(Coordinate { value });
            self.stage = next;
        }
    }

    /// Parses the next points, as far as they are expected and there is room. Returns the position after them.
    pub fn take_points<'a>(&mut self, from: Cursor<'a>) -> Cursor<'a>
        ensures held { (form : Form) (base : ℕ) → held_from form (shown self.old) base from.entry
            ≡ held_from form (shown self.new) base result }
        ensures moved { IsOn from.entry result 0 }
        ensures count { 2 * taken_count self.new + from.entry.at ≤ 2 * taken_count self.old + result.at }
        ensures kept { vec_capacity self.old.points ≤ vec_capacity self.new.points }
    {
        let (Pending::Zero, Stage::Coordinates(left, trailing)) = (self.pending, self.stage) else {
            return from;
        };
        let before = self.points.len();
        let more = (left as usize / 3).min(self.points.capacity() - before);
        let cursor = from.push_points(&mut self.points, before + more);
        let taken = self.points.len() - before;
        self.stage = Stage::Coordinates(left - 3 * taken as u32, trailing);
        cursor
    }

    /// Returns the stage after `count` more points, if a point begins here and all their coordinates are expected.
    pub fn after_points(&self, count: usize) -> Option<Stage>
        ensures { IfSome result (AwaitsPoints self.now count) }
    {
        match (self.pending, self.stage) {
            (Pending::Zero, Stage::Coordinates(left, trailing)) if left as usize / 3 >= count => {
                Some(Stage::Coordinates(left - 3 * count as u32, trailing))
            }
            _ => None,
        }
    }

    /// Appends these points, for which there is room, and enters the given stage.
    pub fn append(&mut self, next: Stage, points: &[Point])
        requires room { vec_len self.old.points + length points.now ≤ vec_capacity self.old.points }
        requires awaits { AwaitsPoints self.old (length points.now) next }
        ensures shown { shown self.new
            ≡ stage_shown next (taken self.old ++ coordinates points.now) }
        ensures count { taken_count self.new ≡ taken_count self.old + 3 * length points.now }
        ensures kept { vec_capacity self.old.points ≤ vec_capacity self.new.points }
    {
        self.points.extend_from_slice(points).unwrap();
        self.stage = next;
    }

    /// Processes the next word, given its token and its line.
    ///
    /// If it completes a point, there is room for that point.
    pub fn take(&mut self, token: Token, line: u32)
        requires small { IsSmall token }
        requires room { taken_count self.old < 3 * vec_capacity self.old.points + 2 }
        ensures shown { shown self.new ≡ progress.after (shown self.old) (is_keyword token) (value_of token) line }
        ensures count { taken_count self.new ≤ taken_count self.old + 1 }
        ensures kept { vec_capacity self.old.points ≤ vec_capacity self.new.points }
    {
        match (self.stage, token.value()) {
            (Stage::Coordinates(0, Trailing::Refused), _) => {
                self.stage = Stage::Failed(ReadFault::Long(line))
            }
            (Stage::Coordinates(0, Trailing::Ignored), _) => {}
            (Stage::Coordinates(left, trailing), Some(value)) => {
                self.coordinate(Stage::Coordinates(left - 1, trailing), value, line)
            }
            (Stage::Failed(_), _) => {}
            (Stage::Keyword, _) => self.stage = after_keyword(token),
            (_, None) => self.stage = Stage::Failed(ReadFault::BadNumber(line)),
            (Stage::First, Some(first)) => self.stage = Stage::Second(first),
            (Stage::Second(first), Some(second)) => self.stage = headed(first, second),
            (Stage::VertexCount, Some(vertices)) => self.stage = Stage::FaceCount(vertices),
            (Stage::FaceCount(vertices), Some(_)) => self.stage = Stage::EdgeCount(vertices),
            (Stage::EdgeCount(vertices), Some(_)) => {
                self.stage = counted(vertices, Trailing::Ignored)
            }
        }
    }

    /// Returns the points if the text is complete, or the fault that something is missing.
    pub fn finish(self) -> Result<Vec<Point>, ReadFault>
        ensures all { IfOk result (λ points. AreAll (shown self) points.items) }
        ensures lack { IfErr result (λ e. lack (shown self) ≡ Some e) }
        ensures text { IfErr result IsTextFault }
    {
        match self.stage {
            Stage::First | Stage::Second(_) => Err(ReadFault::NoHeader),
            Stage::Keyword | Stage::VertexCount => Err(ReadFault::NoHeader),
            Stage::FaceCount(_) | Stage::EdgeCount(_) => Err(ReadFault::NoHeader),
            Stage::Coordinates(0, _) => Ok(self.points),
            Stage::Coordinates(..) => Err(ReadFault::Short),
            Stage::Failed(fault) => Err(fault),
        }
    }
}
