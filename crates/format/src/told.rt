// Answers in document 01's numbers, for whoever prints them or hands them on: number 0 is an answer, and what does not apply
// is 0.
ghost use Rattle.std.specs.Prelude.{◌≡◌};
ghost use Rattle.format.specs.Answers.{number, part_number, place, side_of, header_numbers, verdict, marked_numbers};
ghost use Rattle.format.specs.Answers.{written, framed, surveyed, mended_numbers, closed_numbers};

use crate::closing::{Closed, Kept};
use crate::numbers::{Framed, Head, Marked, Mended, Surveyed, Verdict, Written};
use crate::{Header, MarkedAnswer, MisplacedPart, Refusal, Shape, Side, Totals};

// The number of a part that 8 names.
impl From<MisplacedPart> for u64 {
    ghost from_gives = { λ part n. n ≡ part_number part };

    fn from(part: MisplacedPart) -> u64 {
        match part {
            MisplacedPart::Descriptor => 1,
            MisplacedPart::Directory => 2,
            MisplacedPart::RedundantDirectory => 3,
            MisplacedPart::PrimaryTable => 4,
            MisplacedPart::RedundantTable => 5,
        }
    }
}

impl Refusal {
    pub fn number(self) -> u64
        ensures { result ≡ number self }
    {
        match self {
            Refusal::TooShort => 1,
            Refusal::Magic => 2,
            Refusal::Version => 3,
            Refusal::Newline => 4,
            Refusal::Flags => 5,
            Refusal::Sizes => 6,
            Refusal::Footer => 7,
            Refusal::Misplaced(_) => 8,
            Refusal::GrainPast(_) => 9,
            Refusal::Marker(_) => 10,
            Refusal::CopiesDiffer => 11,
            Refusal::SharedSector => 12,
            Refusal::SectorPast => 20,
            Refusal::TooLittleRoom => 21,
            Refusal::LayersDiffer => 22,
            Refusal::NotCollapsible => 23,
            Refusal::LayerLengths => 24,
            Refusal::StillOpen => 27,
            Refusal::NotMendable => 40,
            Refusal::NotClosable => 41,
            Refusal::NotNormal(_) => 42,
            Refusal::KindGone => 43,
            Refusal::NotMovable => 44,
            Refusal::ProfileSizes => 47,
        }
    }

    // Of a part, a grain or a byte; 0 where the number says all.
    pub fn place(self) -> u64
        ensures { result ≡ place self }
    {
        match self {
            Refusal::Misplaced(part) => u64::from(part),
            Refusal::GrainPast(g) => g,
            Refusal::Marker(g) => g,
            Refusal::NotNormal(byte) => byte,
            _ => 0,
        }
    }
}

impl From<u64> for Side {
    ghost from_gives = { λ good side. side ≡ side_of good };

    fn from(good: u64) -> Side {
        if good == 0 {
            Side::Primary
        } else {
            Side::Redundant
        }
    }
}

impl From<Result<Shape, Refusal>> for Verdict {
    ghost from_gives = { λ answer told. told ≡ verdict answer };

    fn from(answer: Result<Shape, Refusal>) -> Verdict {
        match answer {
            Ok(shape) => Verdict {
                number: 0,
                place: 0,
                capacity: shape.capacity,
                grain_size: shape.grain_size,
            },
            Err(refusal) => Verdict {
                number: refusal.number(),
                place: refusal.place(),
                capacity: 0,
                grain_size: 0,
            },
        }
    }
}

impl From<MarkedAnswer> for Marked {
    ghost from_gives = { λ answer told. told ≡ marked_numbers answer };

    fn from(answer: MarkedAnswer) -> Marked {
        let verdict = Verdict::from(answer.checked);
        Marked {
            number: verdict.number,
            place: verdict.place,
            capacity: verdict.capacity,
            grain_size: verdict.grain_size,
            marked: answer.marked,
        }
    }
}

impl From<Result<Header, Refusal>> for Head {
    ghost from_gives = { λ answer told. told ≡ header_numbers answer };

    fn from(answer: Result<Header, Refusal>) -> Head {
        match answer {
            Ok(h) => Head {
                number: 0,
                place: 0,
                capacity: h.capacity,
                grain_size: h.grain_size,
                descriptor: h.descriptor,
                descriptor_sectors: h.descriptor_sectors,
                dirty: h.dirty,
            },
            Err(refusal) => Head {
                number: refusal.number(),
                place: refusal.place(),
                capacity: 0,
                grain_size: 0,
                descriptor: 0,
                descriptor_sectors: 0,
                dirty: 0,
            },
        }
    }
}

impl From<Result<u64, Refusal>> for Written {
    ghost from_gives = { λ answer told. told ≡ written answer };

    fn from(answer: Result<u64, Refusal>) -> Written {
        match answer {
            Ok(length) => Written {
                number: 0,
                place: 0,
                length,
            },
            Err(refusal) => Written {
                number: refusal.number(),
                place: refusal.place(),
                length: 0,
            },
        }
    }
}

impl From<Result<u64, Refusal>> for Framed {
    ghost from_gives = { λ answer told. told ≡ framed answer };

    fn from(answer: Result<u64, Refusal>) -> Framed {
        match answer {
            Ok(count) => Framed {
                number: 0,
                place: 0,
                count,
            },
            Err(refusal) => Framed {
                number: refusal.number(),
                place: refusal.place(),
                count: 0,
            },
        }
    }
}

impl From<Result<u64, Refusal>> for Mended {
    ghost from_gives = { λ answer told. told ≡ mended_numbers answer };

    fn from(answer: Result<u64, Refusal>) -> Mended {
        match answer {
            Ok(count) => Mended {
                number: 0,
                place: 0,
                count,
            },
            Err(refusal) => Mended {
                number: refusal.number(),
                place: refusal.place(),
                count: 0,
            },
        }
    }
}

impl From<Result<Totals, Refusal>> for Surveyed {
    ghost from_gives = { λ answer told. told ≡ surveyed answer };

    fn from(answer: Result<Totals, Refusal>) -> Surveyed {
        match answer {
            Ok(totals) => Surveyed {
                number: 0,
                place: 0,
                stored: totals.stored,
                zero: totals.zero,
                absent: totals.absent,
                packed: totals.packed,
            },
            Err(refusal) => Surveyed {
                number: refusal.number(),
                place: refusal.place(),
                stored: 0,
                zero: 0,
                absent: 0,
                packed: 0,
            },
        }
    }
}

impl From<Result<Kept, Refusal>> for Closed {
    ghost from_gives = { λ answer told. told ≡ closed_numbers answer };

    fn from(answer: Result<Kept, Refusal>) -> Closed {
        match answer {
            Ok(kept) => Closed {
                number: 0,
                place: 0,
                sectors: kept.sectors,
                grains: kept.grains,
                length: kept.length,
            },
            Err(refusal) => Closed {
                number: refusal.number(),
                place: refusal.place(),
                sectors: 0,
                grains: 0,
                length: 0,
            },
        }
    }
}
