ghost use Rattle.calls.specs.Mapped.{KeyMapped};

use messages::requests::Request;
use rules::board::PauseBoard;

// A call on an opened pool, with its arguments. A start comes with the pause board at its moment.
#[derive(Clone, Copy)]
pub enum Call<K> {
    Start {
        zone: u8,
        key: K,
        request: Request,
        board: PauseBoard,
    },
    DeliverUp {
        zone: u8,
    },
    DeliverDown {
        zone: u8,
    },
    TakeUp {
        key: K,
    },
    LetGo {
        zone: u8,
        key: K,
    },
}

impl<K> Call<K> {
    // The call with its key mapped, and all else as it is.
    pub fn map_key<L, F: FnOnce(K) -> L + Drop>(self, f: F) -> Call<L>
        requires { F.IsAlwaysCallable f }
        ensures { KeyMapped (F.post f) self result }
    {
        match self {
            Call::Start {
                zone,
                key,
                request,
                board,
            } => Call::Start {
                zone,
                key: f(key),
                request,
                board,
            },
            Call::DeliverUp { zone } => Call::DeliverUp { zone },
            Call::DeliverDown { zone } => Call::DeliverDown { zone },
            Call::TakeUp { key } => Call::TakeUp { key: f(key) },
            Call::LetGo { zone, key } => Call::LetGo { zone, key: f(key) },
        }
    }
}
