//! What is read and written beside a session: the crate `connection_table` has the rows.
use cp_http::{Allow, HeadRead, read_head, response};
use std::test::Fail;

#[test]
fn a_head_says_its_four_things(rt: HostRuntime) {
    let bytes =
        b"POST /v1/put HTTP/1.1\r\ncontent-LENGTH: 17\r\nConnection: keep-alive , Close\r\n\r\nbody";
    let HeadRead::Whole { head, length } = read_head(bytes) else {
        assert!(&rt; false, "a whole head");
        return;
    };
    assert!(&rt; length == 77 && head.content_length == Some(17) && head.close);
    assert!(&rt; head.method == "POST" && head.path == "/v1/put");
}

#[test]
fn a_response_is_appended(rt: HostRuntime) -> Result<(), Fail> {
    let mut out = Vec::new(rt.alloc());
    response(200, Allow::Nothing, b"key", false, &mut out)?;
    assert!(rt;
        out.as_slice()
            == b"HTTP/1.1 200 OK\r\nContent-Type: application/octet-stream\r\nContent-Length: 3\r\n\r\nkey".as_slice()
    );
    Ok(())
}
