// Each reference of the code is below 2^64. It is read off the references of settings one by one.
ghost use Rattle.std.specs.Prelude.{All, map};
ghost use Rattle.sparse.specs.Map.{keys, values};
ghost use Rattle.boogie_tree.specs.Whole.{setting_of, value_of};
ghost use Rattle.moves.specs.Printable.{IsNamedKey, IsNamedScalar};
ghost use Rattle.run_file_boogie.specs.BoogiePrintable as boogie;
ghost use Rattle.run_file_boogie.specs.BoogieView.{filling_of};

use boogie_tree::{BScalar, BSetting, BValue};
use moves::{named_key, named_scalar};
use sparse::Sparse;
use vb_value::Key;

pub(crate) fn named_settings(settings: &[BSetting])
    ensures { All boogie.IsNamedSetting (map setting_of settings.now) }
{
    for setting in settings {
        named_setting(&setting.value);
    }
}

fn named_setting(value: &BValue)
    ensures { boogie.IsNamedBValue (value_of value.now) }
{
    match value {
        BValue::One(value) => named_scalar(value),
        BValue::Map(map) => named_map(map),
    }
}

fn named_map(map: &Sparse<Key, BScalar>)
    ensures { All IsNamedKey (keys (filling_of map.now)) × All IsNamedScalar (values (filling_of map.now)) }
{
    for i in 0..map.len() {
        let key = map.key_at(i);
        named_key(key.parts());
        named_scalar(map.get(key));
    }
}
