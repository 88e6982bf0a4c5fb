//! Why a test ended early.
use line_pages::Stop;
use nvm_model::NoMemory;

/// Why a test ended early.
#[derive(Debug, Drop)]
pub enum Early {
    Memory,
    Stopped(Stop),
    /// There is no such page.
    NoPage(u64),
    /// No change is left.
    Spent,
}

impl From<NoMemory> for Early {
    ghost from_gives = { λ error made. made ≡ Memory };

    ghost use Rattle.std.specs.Prelude.{◌≡◌};
    ghost use Rattle.page_tests.specs.declared.early.Early.TheVariants.{Memory};

    fn from(_error: NoMemory) -> Early {
        Early::Memory
    }
}

impl From<Stop> for Early {
    ghost from_gives = { λ error made. made ≡ Stopped error };

    ghost use Rattle.std.specs.Prelude.{◌≡◌};
    ghost use Rattle.page_tests.specs.declared.early.Early.TheVariants.{Stopped};

    fn from(error: Stop) -> Early {
        Early::Stopped(error)
    }
}
