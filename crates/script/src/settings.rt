ghost use Rattle.std.specs.Prelude.{◌≡◌};
ghost use Rattle.script.specs.Settings.{with_setting};

use crate::command::{Numbers, Setting, System, Tables};

// What a hall is made with.
#[derive(Clone, Copy, Debug, PartialEq, Eq)]
pub struct Settings {
    pub system: System,
    pub numbers: Numbers,
    pub tables: Tables,
}

// The tables are as long as any block may need. A constant and no `Default`, whose `impl` would wrap the same lines.
pub const START: Settings = Settings {
    system: System::Ranks { top: 255 },
    numbers: Numbers::Points,
    tables: Tables {
        cells: 4096,
        expanded: 4096,
        flows: 512,
        held: 512,
        answers: 512,
        classes: 512,
        stack: 8,
    },
};

impl Settings {
    pub fn with(self, setting: Setting) -> Settings
        ensures { result ≡ with_setting self setting }
    {
        match setting {
            Setting::System(system) => Settings { system, ..self },
            Setting::Numbers(numbers) => Settings { numbers, ..self },
            Setting::Tables(tables) => Settings { tables, ..self },
        }
    }
}
