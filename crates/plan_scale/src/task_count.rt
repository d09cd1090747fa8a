//! How many tasks a layout has.

ghost use Rattle.std.specs.Prelude.{◌≡◌, ◌<◌, ◌≤◌, ◌*◌, ◌^◌, length};
ghost use Rattle.std.specs.List.{All};
ghost use Rattle.key_groups.specs.declared.limits.TheConstants.{MOST_SUBTASKS};
ghost use Rattle.plan_scale.specs.Tasks as counted;

use layout_rules::{FilterScale, Scale};

fn only_parallelism(sources: &[u32]) -> Option<u32>
    ensures { result ≡ counted.only_parallelism sources.now }
{
    match sources {
        [only] => Some(*only),
        _ => None,
    }
}

fn chains_to(before: Option<u32>, filter: FilterScale) -> bool
    ensures { result ≡ counted.chains_to before filter }
{
    filter.chain && before.is_some_and(|parallelism| parallelism == filter.parallelism)
}

/// The tasks of the stages that filters open. `before` is the parallelism of the stage before them, if a filter may be
/// chained to it.
fn filter_tasks(before: Option<u32>, filters: &[FilterScale]) -> u32
    requires few { length filters.now < 2 ^ 16 }
    requires small { All (λ f. f.parallelism ≤ MOST_SUBTASKS) filters.now }
    ensures says { result ≡ counted.filter_tasks before filters.now }
    ensures bounded { result ≤ MOST_SUBTASKS * length filters.now }
{
    let mut count = 0;
    let mut before = before;
    for filter in filters {
        if !chains_to(before, *filter) {
            count += filter.parallelism;
        }
        before = Some(filter.parallelism);
    }
    count
}

/// How many tasks the layout of a scale has, with the sink's one.
pub fn task_count(scale: &Scale) -> u32
    requires { counted.IsSmall scale.now }
    ensures { result ≡ counted.task_count scale.now }
{
    let sources = scale.sources();
    let filters = filter_tasks(only_parallelism(sources), scale.filters());
    sources.iter().sum::<u32>() + filters + scale.window() + 1
}
