//! A store to a field of an object.

ghost use Rattle.std.specs.Prelude.{◌≡◌};
ghost use Rattle.stage_flow.specs.Stores.{IsStoreIn};
ghost use Rattle.stage_transfer.specs.Settings.{Setting};
ghost use Rattle.stage_views.specs.Views.{IsSettingBy};

use jvm_model::FieldNo;
use stage_views::StageSetting;

/// The value in a slot is stored to a field of the object in another one. A path may have so many fields then.
#[derive(Clone, Copy)]
pub struct FieldStore {
    pub object: u32,
    pub field: FieldNo,
    pub value: u32,
    pub depth: u8,
}

impl FieldStore {
    /// The store at a setting.
    pub fn of(setting: &StageSetting<'_>, object: u32, field: FieldNo, value: u32) -> FieldStore
        ensures store { result ≡ record { object = object; field = field; value = value; depth = setting.now.depth } }
        ensures setting { (w : Setting) → IsSettingBy setting.now w → IsStoreIn w result }
    {
        FieldStore {
            object,
            field,
            value,
            depth: setting.depth,
        }
    }
}
