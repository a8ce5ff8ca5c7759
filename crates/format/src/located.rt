// Where a sector comes from, and the way there, in document 01's numbers.
ghost use Rattle.std.specs.Prelude.{◌≡◌};
ghost use Rattle.format.specs.Answers.{served, unserved, located, chained, steps_numbers};

use crate::numbers::Located;
use crate::steps::{Steps, Way};
use crate::{LayerRefusal, LayerSource, Refusal, Source};

impl From<LayerSource> for Located {
    ghost from_gives = { λ found told. told ≡ served found.layer found.source };

    fn from(found: LayerSource) -> Located {
        let (kind, sector, size, offset) = match found.source {
            Source::Absent => (0, 0, 0, 0),
            Source::Zero => (1, 0, 0, 0),
            Source::Stored(sector) => (2, sector, 0, 0),
            Source::Packed {
                marker,
                size,
                offset,
            } => (3, marker, size, offset),
        };
        Located {
            number: 0,
            layer: found.layer,
            place: 0,
            kind,
            sector,
            size,
            offset,
        }
    }
}

impl From<LayerRefusal> for Located {
    ghost from_gives = { λ refused told. told ≡ unserved refused.layer refused.refusal };

    fn from(refused: LayerRefusal) -> Located {
        Located {
            number: refused.refusal.number(),
            layer: refused.layer,
            place: refused.refusal.place(),
            kind: 0,
            sector: 0,
            size: 0,
            offset: 0,
        }
    }
}

impl From<Result<LayerSource, LayerRefusal>> for Located {
    ghost from_gives = { λ answer told. told ≡ chained answer };

    fn from(answer: Result<LayerSource, LayerRefusal>) -> Located {
        match answer {
            Ok(found) => Located::from(found),
            Err(refused) => Located::from(refused),
        }
    }
}

// One image is layer 0.
impl From<Result<Source, Refusal>> for Located {
    ghost from_gives = { λ answer told. told ≡ located answer };

    fn from(answer: Result<Source, Refusal>) -> Located {
        match answer {
            Ok(source) => Located::from(LayerSource { layer: 0, source }),
            Err(refusal) => Located::from(LayerRefusal { layer: 0, refusal }),
        }
    }
}

impl Steps {
    pub fn new(way: Way, answer: Result<Source, Refusal>) -> Steps
        ensures { result ≡ steps_numbers way answer }
    {
        let told = Located::from(answer);
        Steps {
            number: told.number,
            place: told.place,
            one_is_zero: u64::from(way.one_is_zero),
            grain: way.grain,
            directory_at: way.directory_at,
            directory_entry: way.directory_entry,
            table_at: way.table_at,
            table_entry: way.table_entry,
            kind: told.kind,
            sector: told.sector,
            size: told.size,
            offset: told.offset,
        }
    }
}
