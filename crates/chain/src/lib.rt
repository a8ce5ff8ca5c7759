// The chain lookup: layers end to end in one lent slice, base first, and a lent list of their lengths.
#![tactic(auto)]

ghost use Rattle.std.specs.Prelude.{◌≡◌, ◌+◌, length, Ok, Some};
ghost use Rattle.format.specs.Header.{header_of, judge};
ghost use Rattle.format.specs.Entries.{any_below};
ghost use Rattle.format.specs.Source.{sector_lookup};
ghost use Rattle.format.specs.Chain.{layer_at, headers_down, unlike, walk_down, walk, chain_lookup};
ghost use Rattle.lengths.specs.Laid.{Laid, Ends};
ghost use Rattle.chain.specs.LayerSteps.{HeadedFrom, step_of};

use format::{Header, LayerRefusal, LayerSource, Refusal, Source};
use lengths::lengths_broken;

// The header of layer k, which ends at byte `end` of the chain.
fn judged_layer(layers: &[u8], lengths: &[u64], k: usize, end: usize) -> Result<Header, Refusal>
    requires { Ends layers.now lengths.now (k + 1) end }
    ensures { result ≡ judge (layer_at layers.now lengths.now k) }
{
    let start = end - lengths[k] as usize;
    header::judge(&layers[start..end])
}

// The source of a sector in layer k: its slice begins in the middle of the chain.
fn looked_layer(
    layers: &[u8],
    lengths: &[u64],
    k: usize,
    end: usize,
    sector: u64,
) -> Result<Source, Refusal>
    requires { Ends layers.now lengths.now (k + 1) end }
    ensures { result ≡ sector_lookup (layer_at layers.now lengths.now k) sector }
{
    let start = end - lengths[k] as usize;
    lookup::lookup(&layers[start..end], sector)
}

// Headers from the top down, then the walk.
fn headers_down(layers: &[u8], lengths: &[u64], sector: u64) -> Result<LayerSource, LayerRefusal>
    requires { Laid 16 layers.now lengths.now }
    ensures { result ≡ headers_down layers.now lengths.now (length lengths.now)
        (walk layers.now lengths.now sector) }
{
    let mut end = layers.len();
    for k in (0..lengths.len()).rev() {
        let judged = judged_layer(layers, lengths, k, end);
        if let Err(r) = judged {
            return Err(LayerRefusal {
                layer: k as u64,
                refusal: r,
            });
        }
        end -= lengths[k] as usize;
    }
    walk(layers, lengths, sector)
}

// Whether capacity or grain size of layer k is not that of the first layer's header.
fn unlike_layer(layers: &[u8], lengths: &[u64], k: usize, end: usize, first: Header) -> bool
    requires { Ends layers.now lengths.now (k + 1) end × HeadedFrom layers.now lengths.now 0 }
    ensures { result ≡ unlike first (header_of (layer_at layers.now lengths.now k)) }
{
    let judged = judged_layer(layers, lengths, k, end);
    match judged {
        Ok(h) => header::unlike(first, h),
        Err(_) => true,
    }
}

// Whether some layer's capacity or grain size is not that of the header `first`.
fn some_unlike(layers: &[u8], lengths: &[u64], first: Header) -> bool
    requires { Laid 16 layers.now lengths.now × HeadedFrom layers.now lengths.now 0 }
    ensures { result ≡ any_below (λ k. unlike first (header_of (layer_at layers.now lengths.now k)))
        (length lengths.now) }
{
    let mut end = layers.len();
    for k in (0..lengths.len()).rev() {
        if unlike_layer(layers, lengths, k, end, first) {
            return true;
        }
        end -= lengths[k] as usize;
    }
    false
}

fn served(layer: u64, source: Source) -> Option<Result<LayerSource, LayerRefusal>>
    ensures { result ≡ Some (Ok (record { layer = layer; source = source })) }
{
    Some(Ok(LayerSource { layer, source }))
}

// What layer k says of a sector.
fn step_of(k: u64, answer: Result<Source, Refusal>) -> Option<Result<LayerSource, LayerRefusal>>
    ensures { result ≡ step_of k answer }
{
    match answer {
        Err(refusal) => Some(Err(LayerRefusal { layer: k, refusal })),
        Ok(source) => match source {
            Source::Absent => None,
            Source::Zero => served(k, Source::Zero),
            Source::Stored(sector) => served(k, Source::Stored(sector)),
            Source::Packed {
                marker,
                size,
                offset,
            } => {
                served(
                    k,
                    Source::Packed {
                        marker,
                        size,
                        offset,
                    },
                )
            }
        },
    }
}

fn layer_step(
    layers: &[u8],
    lengths: &[u64],
    k: usize,
    end: usize,
    sector: u64,
) -> Option<Result<LayerSource, LayerRefusal>>
    requires { Ends layers.now lengths.now (k + 1) end }
    ensures { result ≡ step_of k (sector_lookup (layer_at layers.now lengths.now k) sector) }
{
    step_of(k as u64, looked_layer(layers, lengths, k, end, sector))
}

// The topmost layer not absent for the sector, else layer 0 and absent.
fn walk_down(layers: &[u8], lengths: &[u64], sector: u64) -> Result<LayerSource, LayerRefusal>
    requires { Laid 16 layers.now lengths.now }
    ensures { result ≡ walk_down layers.now lengths.now sector (length lengths.now) }
{
    let mut end = layers.len();
    for k in (0..lengths.len()).rev() {
        let step = layer_step(layers, lengths, k, end, sector);
        if let Some(answer) = step {
            return answer;
        }
        end -= lengths[k] as usize;
    }
    Ok(LayerSource {
        layer: 0,
        source: Source::Absent,
    })
}

// 22, 20, then the walk, where the first layer's header is known.
fn walk_from(
    layers: &[u8],
    lengths: &[u64],
    sector: u64,
    first: Header,
) -> Result<LayerSource, LayerRefusal>
    requires laid { Laid 16 layers.now lengths.now × HeadedFrom layers.now lengths.now 0 }
    requires first_value { first ≡ header_of (layer_at layers.now lengths.now 0) }
    ensures { result ≡ walk layers.now lengths.now sector }
{
    if some_unlike(layers, lengths, first) {
        return Err(LayerRefusal {
            layer: 0,
            refusal: Refusal::LayersDiffer,
        });
    }
    if first.capacity <= sector {
        return Err(LayerRefusal {
            layer: 0,
            refusal: Refusal::SectorPast,
        });
    }
    walk_down(layers, lengths, sector)
}

fn walk(layers: &[u8], lengths: &[u64], sector: u64) -> Result<LayerSource, LayerRefusal>
    requires { Laid 16 layers.now lengths.now × HeadedFrom layers.now lengths.now 0 }
    ensures { result ≡ walk layers.now lengths.now sector }
{
    let judged = judged_layer(layers, lengths, 0, lengths[0] as usize);
    match judged {
        Ok(first) => walk_from(layers, lengths, sector, first),
        Err(r) => Err(LayerRefusal {
            layer: 0,
            refusal: r,
        }),
    }
}

// The layer that has a sector, and its source there, or the first refusal: 24, the headers from the top down, 22, 20, the walk.
pub fn chain(layers: &[u8], lengths: &[u64], sector: u64) -> Result<LayerSource, LayerRefusal>
    ensures { result ≡ chain_lookup layers.now lengths.now sector }
{
    if lengths_broken(16, layers, lengths) {
        return Err(LayerRefusal {
            layer: 0,
            refusal: Refusal::LayerLengths,
        });
    }
    headers_down(layers, lengths, sector)
}
