//! The opening of an engine: what a crash left is recovered.
ghost use Rattle.std.specs.Prelude.{◌≡◌, ◌^◌, ◌≤◌, List, IsTrue, IfOk};
ghost use Rattle.devices.specs.World.{Standing, Goes, now};
ghost use Rattle.rows.specs.Tables.{Table};
ghost use Rattle.flat_transactions.specs.OpenStore.{committed_lines};
ghost use Rattle.flat_transactions.specs.Order.{Sizes};

use crate::engine::Engine;
use devices::{Devices, World};
use flat_recovery::{OpenError, Parts, recover};
use flat_transactions::Book;
use page_format::Work;
use std::alloc::Global;
use table_store::Limits;

impl Engine {
    ghost use Rattle.engine.specs.Holds.{Holds, InOrder};
    ghost use Rattle.engine.specs.Engine.{StandsFor, IsSteadyFor, engine_reach};
    ghost use Rattle.engine.specs.Opening.{Opens, ShowsHeld, KeepsOrder, IsOver};
    ghost use Rattle.engine.specs.Resting.{Rests};

    /// Opens the store that the devices hold, which is recovered first. All memory of the engine is taken here.
    ///
    /// `NoMemory` may come before anything is stored; each other error has its cause, and but for a fault no device changes
    /// then.
    pub fn open<W: World>(alloc: Global, world: &mut W) -> Result<Engine, OpenError>
        // What is found, and why it is refused.
        ensures opens { Opens (W.Devices.standing world.old) (W.Devices.standing world.new) result }

        // What the engine stands for.
        ensures stands { IfOk result (λ engine. StandsFor engine (W.Devices.standing world.new)) }
        ensures steady { IfOk result (λ engine. IsSteadyFor engine (W.Devices.standing world.new)) }
        ensures low { IfOk result (λ engine. engine_reach engine ≤ 2 ^ 61) }
        ensures rests { IsTrue (W.Devices.standing world.old).told → IfOk result (λ engine. Rests (committed_lines (W.Devices.standing world.old)) engine (W.Devices.standing world.new)) }
        ensures shows { IsTrue (W.Devices.standing world.old).told → (g : Sizes) (T : List Table) → Holds g T (now (W.Devices.standing world.old)) → IfOk result (ShowsHeld g T (W.Devices.standing world.new)) }

        // What stays, whatever is answered, at each moment.
        ensures order { IsTrue (W.Devices.standing world.old).told → (g : Sizes) (T : List Table) → InOrder g T (W.Devices.standing world.old).lines (W.Devices.standing world.old).blocks (now (W.Devices.standing world.old))
            → KeepsOrder g T (W.Devices.standing world.old) (W.Devices.standing world.new) result }
        ensures goes { Goes (W.Devices.standing world.old) (W.Devices.standing world.new) }
    {
        let parts = recover(alloc, world)?;
        Ok(Engine::over(parts))
    }

    /// The engine over a store that was recovered.
    fn over(parts: Parts) -> Engine
        requires geometry { parts.log.geometry ≡ parts.geometry }
        requires empty { parts.log.start ≡ parts.log.tail }
        ensures { IsOver parts result }
    {
        let limits = Limits {
            tables: parts.geometry.tables,
            rows: parts.geometry.rows,
        };
        let writes = parts.geometry.writes;
        let book = Book::new(parts.log, parts.loose, &parts.geometry);
        Engine {
            book,
            limits,
            writes,
            work: Work::new(),
            commits: 0,
        }
    }
}
