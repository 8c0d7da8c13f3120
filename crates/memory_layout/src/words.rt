// The words of each kind, read and stored: the head, two columns of the pieces, the peers of blocks.
ghost use Rattle.std.specs.Prelude.{◌≡◌, ◌<◌, ◌≤◌, length, set};
ghost use Rattle.memory_layout.specs.Offsets.{piece_word_at, peer_at};
ghost use Rattle.memory_layout.specs.Decode.{head_word, piece_word, peer_word};
ghost use Rattle.memory_layout.specs.Bounds.{WordsSpan};

use crate::offsets::{peer_at, piece_word_at};
use crate::shape::Shape;

pub fn head_word(words: &[u64], k: usize) -> u64
    requires in_bounds { 16 ≤ length words.now }
    requires k_bound { k < 16 }
    ensures { result ≡ head_word words.now k }
{
    words[k]
}

pub fn set_head_word(words: &mut [u64], k: usize, v: u64)
    requires in_bounds { 16 ≤ length words.old }
    requires k_bound { k < 16 }
    ensures { words.new ≡ set words.old k v }
{
    words[k] = v;
}

// Column f of piece i: 0 pad bytes, 1 the list.
pub fn piece_word(words: &[u64], s: Shape, f: usize, i: usize) -> u64
    requires words_span { WordsSpan s words.now }
    requires f_bound { (f < 2) × (i < s.pieces) }
    ensures { result ≡ piece_word words.now s.pieces f i }
{
    let at = piece_word_at(s, f, i);
    words[at]
}

pub fn set_piece_word(words: &mut [u64], s: Shape, f: usize, i: usize, v: u64)
    requires words_span { WordsSpan s words.old }
    requires f_bound { (f < 2) × (i < s.pieces) }
    ensures { words.new ≡ set words.old (piece_word_at s.pieces f i) v }
{
    let at = piece_word_at(s, f, i);
    words[at] = v;
}

// The peer of block j of place p.
pub fn peer_word(words: &[u64], s: Shape, p: usize, j: usize) -> u64
    requires words_span { WordsSpan s words.now }
    requires p_lt_places { (p < s.places) × (j < s.blocks) }
    ensures { result ≡ peer_word words.now s.pieces s.blocks p j }
{
    let at = peer_at(s, p, j);
    words[at]
}

pub fn set_peer_word(words: &mut [u64], s: Shape, p: usize, j: usize, v: u64)
    requires words_span { WordsSpan s words.old }
    requires p_lt_places { (p < s.places) × (j < s.blocks) }
    ensures { words.new ≡ set words.old (peer_at s.pieces s.blocks p j) v }
{
    let at = peer_at(s, p, j);
    words[at] = v;
}
