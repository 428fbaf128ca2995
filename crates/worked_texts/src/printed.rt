use net_addr::Prefix;
use printed_lines::{LineBuilder, TextBuilder};
use std::test::Fail;

#[test]
fn a_text_is_printed(rt: HostRuntime) -> Result<(), Fail> {
    let alloc = rt.alloc();
    let first = LineBuilder::start(alloc, b"branch")?;
    let first = first.address(0x0a00_0c01)?.word(b"R1")?.attach(b':', b"O")?;
    let second = LineBuilder::indented(alloc, b"distance")?.number(115)?;
    let prefix = Prefix::new(0, 0).ok_or("no prefix")?;
    let second = second.prefix(prefix)?;
    let text = TextBuilder::new(alloc).line(first)?.line(second)?.finish();
    assert_eq!(rt;
        text.as_slice(),
        b"branch 10.0.12.1 R1:O\n distance 115 0.0.0.0/0\n".as_slice()
    );
    let one = LineBuilder::start(alloc, b"safe")?.number(0)?.finish()?;
    assert_eq!(rt; one.as_slice(), b"safe 0\n".as_slice());
    Ok(())
}
