// A block with a map.
use crate::maps::Map;

// A byte more than a block has.
pub(crate) const ROOM: usize = 237;

// Where the map begins.
const MAP: usize = 172;

// All bytes but the map's are `fill`.
pub(crate) fn block(map: &Map, fill: u8) -> [u8; ROOM] {
    let mut b = [fill; ROOM];
    let words = map.as_flattened();
    for (place, word) in b[MAP..].chunks_exact_mut(4).zip(words) {
        place.copy_from_slice(&word.to_le_bytes());
    }
    b
}
