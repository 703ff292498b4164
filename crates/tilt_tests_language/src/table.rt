// What the tests of tables share.
use std::alloc::Global;
use std::fmt::Debug;
use std::process::Abort;
use std::test::Fail;

// Ends the test unless both are the same. The case is shown beside them.
pub fn assert_same<T: PartialEq + Debug, C: Debug>(rt: &impl Abort, found: &T, want: &T, case: &C) {
    assert_eq!(rt; found, want, "at {case:?}");
}

// Ends the test unless both texts are the same. What was shown is printed beside them.
pub fn assert_text(rt: &impl Abort, found: &str, want: &str, shown: &str) {
    assert_eq!(rt; found, want, "at {shown}");
}

// A way to show what a text is.
pub trait Shown {
    fn shown(&self, alloc: Global, text: &str) -> Result<String, Fail>;
}

// Ends the test unless each text is shown so.
pub fn assert_shown<S: Shown>(
    rt: &impl Abort,
    alloc: Global,
    cases: &[(&str, &str)],
    way: &S,
) -> Result<(), Fail> {
    for (text, want) in cases {
        let shown = way.shown(alloc, text)?;
        assert_text(rt, shown.as_str(), want, text);
    }
    Ok(())
}
