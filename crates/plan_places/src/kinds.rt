//! The members of each object of a plan.

use place_notes::{Form, Rule, Shape};

/// An object whose members a plan's format names.
#[derive(Clone, Copy)]
pub(crate) enum Kind {
    Plan,
    Source,
    Watermarks,
    Filter,
    Window,
    Count,
    Aggregate,
    Having,
}

macro_rules! needed {
    ($name:literal, $form:ident) => {
        Rule {
            name: $name,
            form: Form::$form,
            may_be_absent: false,
        }
    };
}

macro_rules! optional {
    ($name:literal, $form:ident) => {
        Rule {
            name: $name,
            form: Form::$form,
            may_be_absent: true,
        }
    };
}

const PLAN_MEMBERS: [Rule; 7] = [
    needed!("columns", Whole),
    needed!("maxParallelism", Whole),
    needed!("time", Whole),
    needed!("key", Whole),
    needed!("sources", List),
    needed!("window", Object),
    optional!("filters", List),
];

const SOURCE_MEMBERS: [Rule; 3] = [
    needed!("uid", Text),
    needed!("partitions", Whole),
    optional!("watermarks", Object),
];

const WATERMARK_MEMBERS: [Rule; 1] = [needed!("bound", Whole)];

const FILTER_MEMBERS: [Rule; 4] = [
    needed!("uid", Text),
    needed!("column", Whole),
    needed!("op", Operator),
    needed!("value", Whole),
];

const WINDOW_MEMBERS: [Rule; 6] = [
    needed!("uid", Text),
    needed!("size", Whole),
    needed!("aggregates", List),
    optional!("slide", Whole),
    optional!("offset", Whole),
    optional!("having", List),
];

const COUNT_MEMBERS: [Rule; 1] = [needed!("fn", Function)];

const AGGREGATE_MEMBERS: [Rule; 2] = [needed!("fn", Function), needed!("column", Whole)];

const HAVING_MEMBERS: [Rule; 3] = [
    needed!("aggregate", Whole),
    needed!("op", Operator),
    needed!("value", Whole),
];

impl Kind {
    fn rules(self) -> &'static [Rule] {
        match self {
            Kind::Plan => &PLAN_MEMBERS,
            Kind::Source => &SOURCE_MEMBERS,
            Kind::Watermarks => &WATERMARK_MEMBERS,
            Kind::Filter => &FILTER_MEMBERS,
            Kind::Window => &WINDOW_MEMBERS,
            Kind::Count => &COUNT_MEMBERS,
            Kind::Aggregate => &AGGREGATE_MEMBERS,
            Kind::Having => &HAVING_MEMBERS,
        }
    }

    fn names(self) -> &'static str {
        match self {
            Kind::Plan =>
                "columns, maxParallelism, time, key, sources and window, and perhaps filters",
            Kind::Source => "uid and partitions, and perhaps watermarks",
            Kind::Watermarks => "bound",
            Kind::Filter => "uid, column, op and value",
            Kind::Window => "uid, size and aggregates, and perhaps slide, offset and having",
            Kind::Count => "fn alone, as a count",
            Kind::Aggregate => "fn and column",
            Kind::Having => "aggregate, op and value",
        }
    }

    /// The members that it has to have.
    pub(crate) fn shape(self) -> Shape {
        Shape {
            rules: self.rules(),
            names: self.names(),
        }
    }
}
