ghost use Rattle.std.specs.Prelude.{◌≡◌, ◌≤◌, ◌^◌};
ghost use Rattle.byte_fields.specs.Fields as fields;
ghost use Rattle.aggregates.specs.Kinds.{kind_of, is_number};
ghost use Rattle.plan_model.specs.declared.limits.TheConstants.{MOST_RECORDS};

use plan_model::Aggregate;

/// How an aggregate brings numbers together, whatever its column.
#[derive(Clone, Copy, Debug, PartialEq, Eq)]
pub enum Kind {
    Count,
    Sum,
    Least,
    Greatest,
}

impl Kind {
    /// The kind of an aggregate.
    pub fn of(aggregate: Aggregate) -> Kind
        ensures { result ≡ kind_of aggregate }
    {
        match aggregate {
            Aggregate::Count => Kind::Count,
            Aggregate::Sum(_) => Kind::Sum,
            Aggregate::Least(_) => Kind::Least,
            Aggregate::Greatest(_) => Kind::Greatest,
        }
    }

    /// Whether so many records, at most 2^40, can come to the number: the count itself, a sum of at most
    /// 2^63 for each, or a number of 64 bits.
    pub fn admits(self, count: u64, number: i128) -> bool
        requires { count ≤ MOST_RECORDS }
        ensures { result ≡ is_number count self number }
    {
        match self {
            Kind::Count => number == count as i128,
            Kind::Sum => number.unsigned_abs() <= count as u128 * (1 << 63),
            Kind::Least | Kind::Greatest => is_i64(number),
        }
    }
}

fn is_i64(number: i128) -> bool
    ensures { result ≡ fields.is_i64 number }
{
    -(1 << 63) <= number && number <= (1 << 63) - 1
}
