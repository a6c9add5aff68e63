// The rule that the values of a line say.
ghost use Rattle.std.specs.Prelude.{◌≡◌, slice_index_or};
ghost use Rattle.sets.specs.Masks.{number_of};
ghost use Rattle.ticket.specs.Ruled.{head_of, width_of, set_of, body_of, rule_of as rule_said};
ghost use Rattle.fields.specs.declared.value.Value.TheVariants.{Dash};

use fields::Value;
use rules::{Body, FaceSet, Kind, OptionSet, Rule};
use sets::Mask;

// The value at a place, counted from 0; past the last there is none, which is what `-` says too.
pub fn at(values: &[Value], i: usize) -> Value
    ensures { result ≡ slice_index_or values.now i Dash }
{
    values.get(i).copied().unwrap_or(Value::Dash)
}

fn head(value: Value) -> Option<u32>
    ensures { result ≡ head_of value }
{
    match value {
        Value::Plain(n) => Some(n),
        Value::Dash | Value::Signed(_) => None,
    }
}

fn width(value: Value) -> i32
    ensures { result ≡ width_of value }
{
    match value {
        Value::Signed(z) => z,
        Value::Dash | Value::Plain(_) => 0,
    }
}

// The numbers from the third field on.
fn members(values: &[Value]) -> Mask
    ensures { number_of result ≡ set_of values.now }
{
    values
        .iter()
        .skip(2)
        .fold(Mask::empty(), |set, value| set.with(value.amount()))
}

fn body(kind: Kind, values: &[Value]) -> Body
    ensures { result ≡ body_of kind values.now }
{
    match kind {
        Kind::Options => Body::Options {
            head: head(at(values, 1)),
            options: OptionSet {
                members: members(values),
            },
        },
        Kind::Gaps => Body::Gap {
            a: at(values, 1).amount(),
            b: at(values, 2).amount(),
            w: width(at(values, 3)),
        },
        Kind::Faces => Body::Faces {
            odd: at(values, 1).amount() == 1,
            faces: FaceSet {
                members: members(values),
            },
        },
    }
}

pub fn rule_of(kind: Kind, values: &[Value]) -> Rule
    ensures { result ≡ rule_said kind values.now }
{
    Rule {
        owner: at(values, 0).amount(),
        body: Some(body(kind, values)),
    }
}
