// Each reference of the code is below 2^64. It is read off the references of values one by one.
ghost use Rattle.std.specs.Prelude.{All, map};
ghost use Rattle.sparse.specs.Map.{keys, values};
ghost use Rattle.boogie_tree.specs.Whole.{setting_of, value_of};
ghost use Rattle.moves.specs.Printable.{IsNamedKey, IsNamedScalar};
ghost use Rattle.enc_locals.specs.Filled.{map_of};
ghost use Rattle.enc_locals.specs.Opened.{IsNamedBValue, IsNamedSetting};

use boogie_tree::{BScalar, BSetting, BValue};
use moves::{named_key, named_scalar};
use sparse::Sparse;
use vb_value::Key;

pub(crate) fn named_settings(settings: &[BSetting])
    ensures { All IsNamedSetting (map setting_of settings.now) }
{
    for setting in settings {
        named_setting(setting);
    }
}

fn named_setting(setting: &BSetting)
    ensures { IsNamedSetting (setting_of setting.now) }
{
    named_variable(&setting.value);
}

fn named_variable(value: &BValue)
    ensures { IsNamedBValue (value_of value.now) }
{
    match value {
        BValue::One(value) => named_scalar(value),
        BValue::Map(map) => named_map(map),
    }
}

fn named_map(map: &Sparse<Key, BScalar>)
    ensures keys { All IsNamedKey (keys (map_of map.now)) }
    ensures values { All IsNamedScalar (values (map_of map.now)) }
{
    for i in 0..map.len() {
        let key = map.key_at(i);
        named_key(key.parts());
        named_scalar(map.get(key));
    }
}
