// The answer in document 02's numbers: the extent stands where a chain's answer has the layer.
ghost use Rattle.std.specs.Prelude.{◌≡◌};
ghost use Rattle.disk.specs.Split.{unsplit, split_numbers};

use disk::SplitRefusal;
use format::{LayerRefusal, LayerSource, Located};

fn unsplit(number: u64, extent: u64, place: u64) -> Located
    ensures { result ≡ unsplit number extent place }
{
    Located {
        number,
        layer: extent,
        place,
        kind: 0,
        sector: 0,
        size: 0,
        offset: 0,
    }
}

pub fn split_of(a: Result<LayerSource, SplitRefusal>) -> Located
    ensures { result ≡ split_numbers a }
{
    match a {
        Ok(found) => Located::from(found),
        Err(SplitRefusal::Unread(number, place)) => unsplit(number, 0, place),
        Err(SplitRefusal::Lengths) => unsplit(24, 0, 0),
        Err(SplitRefusal::SectorPast) => unsplit(20, 0, 0),
        Err(SplitRefusal::NoAccess(extent)) => unsplit(39, extent, 0),
        Err(SplitRefusal::OtherFile(extent)) => unsplit(45, extent, 0),
        Err(SplitRefusal::Image(layer, refusal)) => Located::from(LayerRefusal { layer, refusal }),
        Err(SplitRefusal::CapacityDiffers(extent)) => unsplit(38, extent, 0),
    }
}
