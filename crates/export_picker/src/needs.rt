// What a picker of a geometry needs: 0 where the geometry is not valid.
ghost use Rattle.std.specs.Prelude.{◌≡◌};
ghost use Rattle.types.specs.Piece.{number_of};
ghost use Rattle.geometry_needs.specs.Needs.{memory_of, Lengths, bytes_for};

// Lengths of the three buffers: words, cells, records.
#[repr(C)]
#[derive(Drop)]
pub struct MemoryNeeded {
    pub words: u64,
    pub cells: u64,
    pub partials: u64,
}

#[unsafe(no_mangle)]
pub extern "C" fn pp_memory_needed(total_size: i64, piece_size: i32) -> MemoryNeeded
    ensures { Lengths (memory_of (number_of total_size) (number_of piece_size)) result.words result.cells result.partials }
{
    let need = picker_images::memory_needed(total_size, piece_size);
    MemoryNeeded {
        words: need.words,
        cells: need.cells,
        partials: need.partials,
    }
}

// Bytes that no image passes.
#[unsafe(no_mangle)]
pub extern "C" fn pp_image_needed(total_size: i64, piece_size: i32) -> u64
    ensures { result ≡ bytes_for (number_of total_size) (number_of piece_size) }
{
    picker_images::image_needed(total_size, piece_size)
}
