// What a test fails with where a sample can't be made.
use std::test::Fail;

pub fn too_large() -> Fail {
    Fail::new("a sample that is too large")
}
