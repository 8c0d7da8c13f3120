// Answers that are enums, as a kind and a number.
ghost use Rattle.std.specs.Prelude.{◌≡◌};
ghost use Rattle.link_piece_questions.specs.Answers.{flag_told, number_told, peer_told, placed_told, records_told};

use ask_block::PeerOf;
use ask_places::Placed;

// What was told, by kind: 0 a number, 1 no peer, 2 nothing, 3 that the list is stale. The number is 0 where none was told.
#[repr(C)]
#[derive(Drop)]
pub struct Told {
    pub kind: u64,
    pub number: u64,
}

impl From<Option<bool>> for Told {
    ghost from_gives = { λ f told. flag_told told ≡ f };

    fn from(f: Option<bool>) -> Told {
        match f {
            Some(is) => Told {
                kind: 0,
                number: u64::from(is),
            },
            None => Told { kind: 2, number: 0 },
        }
    }
}

impl From<Option<u16>> for Told {
    ghost from_gives = { λ x told. number_told told ≡ x };

    fn from(x: Option<u16>) -> Told {
        match x {
            Some(n) => Told {
                kind: 0,
                number: u64::from(n),
            },
            None => Told { kind: 2, number: 0 },
        }
    }
}

impl From<PeerOf> for Told {
    ghost from_gives = { λ x told. peer_told told ≡ x };

    fn from(x: PeerOf) -> Told {
        match x {
            PeerOf::Peer(p) => Told { kind: 0, number: p },
            PeerOf::NoPeer => Told { kind: 1, number: 0 },
            PeerOf::Nothing => Told { kind: 2, number: 0 },
        }
    }
}

impl From<Placed> for Told {
    ghost from_gives = { λ p told. placed_told told ≡ p };

    fn from(p: Placed) -> Told {
        match p {
            Placed::Number(n) => Told { kind: 0, number: n },
            Placed::Nothing => Told { kind: 2, number: 0 },
            Placed::Stale => Told { kind: 3, number: 0 },
        }
    }
}

impl From<Option<usize>> for Told {
    ghost from_gives = { λ x told. records_told told ≡ x };

    fn from(x: Option<usize>) -> Told {
        match x {
            Some(n) => Told {
                kind: 0,
                number: n as u64,
            },
            None => Told { kind: 2, number: 0 },
        }
    }
}
