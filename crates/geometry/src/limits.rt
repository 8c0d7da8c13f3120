// The limits that `types` names are those of the definition.
ghost use Rattle.std.specs.Prelude.{◌≡◌, ◌∷◌, []};
ghost use Rattle.model.specs.State.{max_pieces, max_piece_size, max_peers, max_partials, max_extents, extent_blocks};

use types::{
    MAX_EXTENTS, MAX_PARTIALS, MAX_PEERS, MAX_PIECE_AFFINITY_EXTENT, MAX_PIECE_SIZE, MAX_PIECES,
};

// The value of each constant.
pub fn limit_values() -> [u64; 6]
    ensures { result ≡ max_pieces ∷ max_piece_size ∷ max_peers ∷ max_partials ∷ max_extents ∷ extent_blocks ∷ [] }
{
    [
        MAX_PIECES,
        MAX_PIECE_SIZE,
        MAX_PEERS,
        MAX_PARTIALS,
        MAX_EXTENTS,
        MAX_PIECE_AFFINITY_EXTENT,
    ]
}
