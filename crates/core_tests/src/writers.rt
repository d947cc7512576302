//! Outputs that fail.

use absflow_run::script;
use std::io;
use std::io::Write;
use std::test::Fail;

/// A line, a read that there is no row for, and a checkpoint that begins. It writes 43 bytes.
const SCRIPT: &str =
    r#"{"job":{"vertices":[{"name":"s","kind":"source"},{"name":"plus","kind":"add","n":10},{"name":"out","kind":"sink"}],"edges":[{"from":"s","to":"plus"},{"from":"plus","to":"out"}]},"partitions":[[]],"steps":["read 0","trigger"]}"#;

/// A writer that fails after some bytes.
#[derive(Drop)]
struct Short {
    left: usize,
}

impl Write for Short {
    fn write(&mut self, buf: &[u8]) -> io::Result<usize> {
        if self.left == 0 {
            return Err(io::Error::from(io::ErrorKind::BrokenPipe));
        }
        let n = buf.len().min(self.left);
        self.left -= n;
        Ok(n)
    }

    fn flush(&mut self) -> io::Result<()> {
        Ok(())
    }
}

#[test]
fn output_that_fails_ends_with_status_1(rt: HostRuntime) -> Result<(), Fail> {
    let alloc = rt.alloc();
    for left in [0, 7, 20] {
        let mut err = Vec::new(alloc);
        let status = script(alloc, SCRIPT.as_bytes(), &mut Short { left }, &mut err);
        assert_eq!(rt; status, 1);
        assert_eq!(rt; str::from_utf8(&err), Ok("cannot write the output\n"));
    }
    Ok(())
}
