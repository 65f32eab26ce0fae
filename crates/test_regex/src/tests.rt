//! Tests of `regress`, and of the validator of `example_schema`.

/// As `assert_eq!`, but its message has the expressions in place of the values: so a test is proved in less time.
macro_rules! expect_eq {
    ($rt:expr; $left:expr, $right:expr $(,)?) => {
        assert!($rt; $left == $right)
    };
    ($rt:expr; $left:expr, $right:expr, $($message:tt)+) => {
        assert!($rt; $left == $right, $($message)+)
    };
}

mod cookbook_examples;
mod dialects;
mod exact;
mod examples;
mod regular_expressions;
mod schemas;
mod searchers;
mod theorems;
