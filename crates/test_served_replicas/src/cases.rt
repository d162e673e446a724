//! The questions to two replicas that find no memory.

use crate::asked::{Heard, Question};
use node_calls::Answer;
use served_replicas::RebuildFault;

/// An addition at the first replica, of which no growth is refused.
const TO_FIRST: Question = Question::Add {
    second: false,
    least: 0,
    growth: 0,
};

/// An addition at the second replica, which is to have come as far as the first.
const TO_SECOND: Question = Question::Add {
    second: true,
    least: 1,
    growth: 0,
};

/// The questions to both replicas, the second of which finds no memory at first, and the answers.
static STOPPED: [(Question, Heard); 8] = [
    (
        TO_FIRST,
        Heard::Answer(Answer::Committed {
            position: 1,
            reply: 10,
        }),
    ),
    (TO_SECOND, Heard::Answer(Answer::Behind)),
    (
        Question::Rebuild { replica: 2 },
        Heard::Rebuilt(Err(RebuildFault::NoMemory)),
    ),
    (
        Question::Rebuild { replica: 3 },
        Heard::Rebuilt(Err(RebuildFault::NoReplica)),
    ),
    (TO_SECOND, Heard::Answer(Answer::Behind)),
    (Question::Allow, Heard::Allowed),
    (Question::Rebuild { replica: 2 }, Heard::Rebuilt(Ok(1))),
    (
        TO_SECOND,
        Heard::Answer(Answer::Committed {
            position: 2,
            reply: 20,
        }),
    ),
];

/// The place of the case that refuses growths.
#[derive(Clone, Copy, Debug, PartialEq, Eq)]
enum Place {
    /// A call is asked, of which a growth is refused.
    Call,
    /// The first replica has stopped before an entry, and is made anew.
    Rebuilding { position: u32 },
    /// The log's length is asked for.
    Length,
    /// The question whether the call asked for that growth.
    Refusals { length: u32 },
    /// The call didn't ask for that growth: one more call comes to this position.
    LastCall { position: u32 },
    End,
}

/// Refuses each growth of a call at the first replica in turn, until a call asks for no more. The log has what was
/// answered as ordered, whatever was refused.
#[derive(Clone, Copy, Debug, PartialEq, Eq)]
pub struct RefusedGrowths {
    place: Place,
    /// The number of the growth that is refused.
    growth: u64,
    /// The number of growths that were refused.
    refused: u64,
    /// The number of calls that were answered as ordered.
    ordered: u32,
    /// The number of calls that weren't ordered, for want of memory.
    pub wanting: u32,
    /// The number of calls that were ordered, and not delivered at their replica.
    pub stopped: u32,
}

impl RefusedGrowths {
    /// The first place: the first growth is refused next, and nothing was counted yet.
    pub const FIRST: RefusedGrowths = RefusedGrowths {
        place: Place::Call,
        growth: 1,
        refused: 0,
        ordered: 0,
        wanting: 0,
        stopped: 0,
    };

    /// Counts a call of which a growth was refused. Returns the place behind the call, where it may be answered so.
    fn place_after(&mut self, answer: Answer) -> Option<Place> {
        match answer {
            Answer::Committed { .. } => self.ordered = self.ordered.wrapping_add(1),
            Answer::Stopped { position } => {
                self.ordered = self.ordered.wrapping_add(1);
                self.stopped = self.stopped.wrapping_add(1);
                return Some(Place::Rebuilding { position });
            }
            Answer::NoMemory => self.wanting = self.wanting.wrapping_add(1),
            _ => return None,
        }
        Some(Place::Length)
    }

    /// Returns the place where `refused` growths were refused so far, beside a log of this length.
    fn place_of(&mut self, refused: u64, length: u32) -> Place {
        if refused == self.refused {
            return Place::LastCall {
                position: length.wrapping_add(1),
            };
        }
        self.refused = refused;
        self.growth = self.growth.wrapping_add(1);
        Place::Call
    }

    fn next(&self) -> Option<Question> {
        match self.place {
            Place::Call => Some(Question::Add {
                second: false,
                least: 0,
                growth: self.growth,
            }),
            Place::Rebuilding { .. } => Some(Question::Rebuild { replica: 1 }),
            Place::Length => Some(Question::Length),
            Place::Refusals { .. } => Some(Question::Refusals),
            Place::LastCall { .. } => Some(TO_FIRST),
            Place::End => None,
        }
    }

    /// Tells whether this may be heard at the place, and goes on to the next place.
    fn hear(&mut self, heard: Heard) -> bool {
        match (self.place, heard) {
            (Place::Call, Heard::Answer(answer)) => match self.place_after(answer) {
                Some(place) => {
                    self.place = place;
                    true
                }
                None => false,
            },
            (Place::Rebuilding { position }, _) => {
                self.place = Place::Length;
                heard == Heard::Rebuilt(Ok(position))
            }
            (Place::Length, Heard::Length(length)) => {
                self.place = Place::Refusals { length };
                self.ordered == length
            }
            (Place::Refusals { length }, Heard::Refusals(refused)) => {
                self.place = self.place_of(refused, length);
                true
            }
            (Place::LastCall { position }, Heard::Answer(Answer::Committed { position: at, .. })) =>
                {
                    self.place = Place::End;
                    at == position
                }
            _ => false,
        }
    }
}

/// A case that is tried at two replicas.
#[derive(Clone, Copy, Debug, PartialEq, Eq)]
pub enum Case {
    /// The second replica finds no memory, until it is made anew. The value is the number of questions so far.
    Stopped(usize),
    /// Each growth is refused in turn, at the first.
    Refused(RefusedGrowths),
}

impl Case {
    /// Returns the next question, and none at the end.
    pub fn next(&self) -> Option<Question> {
        match self {
            Case::Stopped(index) => Some(STOPPED.get(*index)?.0),
            Case::Refused(refusals) => refusals.next(),
        }
    }

    /// Takes what is heard then, and tells whether it may be heard.
    pub fn hear(&mut self, heard: Heard) -> bool {
        match self {
            Case::Stopped(index) => {
                let wanted = STOPPED.get(*index);
                *index = index.wrapping_add(1);
                matches!(wanted, Some((_, wanted)) if *wanted == heard)
            }
            Case::Refused(refusals) => refusals.hear(heard),
        }
    }
}
