ghost use Rattle.std.specs.Prelude.{◌≡◌};
ghost use Rattle.fj_jobs.specs.Queries.{both_values, query_value, same_query_value};

use crate::blocked_range::BlockedRange;
use crate::divide::Divide;
use crate::interval::Interval;
use crate::linear_mod::{LinearMod, lower};

/// A question about the numbers of a range.
#[derive(Clone, Copy, PartialEq, Eq, Debug)]
pub enum Query {
    /// Their sum: [`RangeSum`](crate::RangeSum).
    Sum,
    /// The least value of this function: [`RangeMin`](crate::RangeMin).
    Min(LinearMod),
    /// The first number at which this function has this value: [`FirstHit`](crate::FirstHit).
    Find(LinearMod, u64),
}

/// The answer to a [`Query`].
#[derive(Clone, Copy, Debug)]
pub enum QueryValue {
    /// The sum, below 2^64.
    Total(u64),
    /// The least value, and the smallest number that has it; None where there are no numbers.
    Least(Option<(u64, u64)>),
    /// The smallest number with the wanted value; None where there is none.
    Hit(Option<u64>),
}

/// A query over a range. A program that chooses the query as it runs needs the code of one job, not of three.
#[derive(Drop)]
pub struct RangeQuery {
    /// The numbers, and their blocks.
    pub range: BlockedRange,
    /// The question.
    pub query: Query,
}

impl Divide for RangeQuery {
    type Key = (Interval, Query);

    type Out = QueryValue;

    ghost key_of = { λ j. (j.range.numbers, j.query) };

    ghost value = { λ k. query_value k.1 k.0.from k.0.count };

    ghost leaf_of = { λ j. query_value j.query j.range.numbers.from j.range.numbers.count };

    ghost combined = { both_values };

    ghost size = { λ j. j.range.numbers.count };

    fn key(&self) -> (Interval, Query) {
        (self.range.numbers, self.query)
    }

    #[tactic(auto, using(crate::proofs::Queries::query_halves))]
    fn split(self) -> Result<(RangeQuery, RangeQuery), RangeQuery> {
        let RangeQuery { range, query } = self;
        match range.halve() {
            Ok((left, right)) => Ok((
                RangeQuery { range: left, query },
                RangeQuery {
                    range: right,
                    query,
                },
            )),
            Err(range) => Err(RangeQuery { range, query }),
        }
    }

    fn leaf(&self) -> QueryValue {
        let numbers = &self.range.numbers;
        match self.query {
            Query::Sum => QueryValue::Total(numbers.sum()),
            Query::Min(function) => QueryValue::Least(function.least(numbers)),
            Query::Find(function, want) => QueryValue::Hit(function.first(numbers, want)),
        }
    }

    /// Of values of different queries, what was found on the left, else the right one.
    fn combine(left: QueryValue, right: QueryValue) -> QueryValue {
        match (left, right) {
            (QueryValue::Total(left), QueryValue::Total(right)) => {
                QueryValue::Total(left.wrapping_add(right))
            }
            (QueryValue::Least(left), QueryValue::Least(right)) => {
                QueryValue::Least(lower(left, right))
            }
            (QueryValue::Hit(Some(number)), _) => QueryValue::Hit(Some(number)),
            (_, right) => right,
        }
    }

    #[tactic(auto, using(crate::proofs::Queries::hit_is_final))]
    fn is_final(value: &QueryValue) -> bool {
        match value {
            QueryValue::Hit(hit) => hit.is_some(),
            _ => false,
        }
    }

    ghost same_value = { λ a b e. same_query_value a.1 a.0.from a.0.count b.1 b.0.from b.0.count e };
}
