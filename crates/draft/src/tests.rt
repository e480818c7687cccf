use crate::Draft;
use std::process::Abort;
use std::test::Fail;

#[test]
fn a_file_has_left_ends_first_and_then_right_ends(rt: HostRuntime) -> Result<(), Fail> {
    let heap = rt.alloc();
    let mut draft = Draft::new(heap);
    draft.join(0, 1)?;
    draft.join(1, 2)?;
    let file = draft.file(heap, 3)?;
    assert_eq!(rt; file.as_slice(), &[3, 2, 0, 0, 1, 1, 2][..]);
    Ok(())
}
