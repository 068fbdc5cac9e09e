// Bytes on both sides of each rule of the characters, with the answer that the rules give.
#![tactic(auto)]

#[cfg(test)]
mod tests {
    use characters::{LIMIT, MARK, check as examine, without_mark};
    use model::Fault;
    use std::test::Fail;

    fn told(file: &[u8]) -> Result<(), Fault> {
        examine(file).map_err(|fault| fault.fault())
    }

    fn refused(number: u8, line: u32, byte: u32) -> Result<(), Fault> {
        Err(Fault {
            number,
            line,
            byte,
            missing: None,
        })
    }

    #[test]
    fn good_bytes(rt: HostRuntime) {
        let files: [&[u8]; 14] = [
            b"",
            b"\xEF\xBB\xBF",
            b"\t\n\r ~",
            b"\xC2\xA0",
            b"\xDF\xBF",
            b"\xE0\xA0\x80",
            b"\xED\x9F\xBF",
            b"\xEE\x80\x80",
            b"\xEF\xBF\xBD",
            b"\xF0\x90\x80\x80",
            b"\xF4\x8F\xBF\xBF",
            b"\xEF\xBB\xBF\xEF\xBB\xBF",
            b"\xF0\x9F\xBF\xBE",
            b"0 HEAD\r\n0 TRLR\r\n",
        ];
        for file in files {
            assert_eq!(rt; told(file), Ok(()));
        }
    }

    #[test]
    fn bytes_that_are_not_utf8(rt: HostRuntime) {
        let files: [(&[u8], u32, u32); 18] = [
            (b"\xEF\xBB", 1, 0),
            (b"\x80", 1, 0),
            (b"\xC0\x80", 1, 0),
            (b"\xC1\xBF", 1, 0),
            (b"\xC2", 1, 0),
            (b"\xC2\x20", 1, 0),
            (b"\xE0\x9F\xBF", 1, 0),
            (b"\xED\xA0\x80", 1, 0),
            (b"\xED\xBF\xBF", 1, 0),
            (b"\xE1\x80", 1, 0),
            (b"\xF0\x8F\xBF\xBF", 1, 0),
            (b"\xF4\x90\x80\x80", 1, 0),
            (b"\xF5\x80\x80\x80", 1, 0),
            (b"\xFF", 1, 0),
            (b"a\nb\xFF", 2, 3),
            (b"a\r\n\xFF", 2, 3),
            (b"a\r\xFF", 2, 2),
            (b"\x00\xFF", 1, 1),
        ];
        for (file, line, byte) in files {
            assert_eq!(rt; told(file), refused(2, line, byte));
        }
    }

    #[test]
    fn banned_characters(rt: HostRuntime) {
        let files: [(&[u8], u32, u32); 16] = [
            (b"\x00", 1, 0),
            (b"\x08", 1, 0),
            (b"\x0B", 1, 0),
            (b"\x0C", 1, 0),
            (b"\x0E", 1, 0),
            (b"\x1F", 1, 0),
            (b"\x7F", 1, 0),
            (b"\xC2\x80", 1, 0),
            (b"\xC2\x9F", 1, 0),
            (b"\xEF\xBF\xBE", 1, 0),
            (b"\xEF\xBF\xBF", 1, 0),
            (b"ab\x01\x02", 1, 2),
            (b"a\n\x01", 2, 2),
            (b"a\r\x01", 2, 2),
            (b"a\r\n\x01", 2, 3),
            (b"\n\r\x01", 3, 2),
        ];
        for (file, line, byte) in files {
            assert_eq!(rt; told(file), refused(3, line, byte));
        }
    }

    #[test]
    fn length_and_mark(rt: HostRuntime) -> Result<(), Fail> {
        let exact = vec![in rt.alloc(); 0x20u8; LIMIT]?;
        assert_eq!(rt; told(&exact), Ok(()));
        let longer = vec![in rt.alloc(); 0u8; LIMIT + 1]?;
        assert_eq!(rt; told(&longer), refused(1, 0, 0));
        assert_eq!(rt; without_mark(b"\xEF\xBB\xBF0").len(), 1);
        assert_eq!(rt; without_mark(b"\xEF\xBB").len(), 2);
        assert_eq!(rt; without_mark(b"\xEF\xBB\xBE0").len(), 4);
        assert_eq!(rt; without_mark(&MARK).len(), 0);
        Ok(())
    }
}
