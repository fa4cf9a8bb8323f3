// Names of message files.
use crate::tests::row_parts;
use crate::{message_name, uid_of_name};
use std::test::Fail;

// Each row is `NAME => UID`.
const NAMES: &str = "\
1. => 1
10. => 10
4294967295. => 4294967295
4294967296. => none
42949672950. => none
0. => none
01. => none
1 => none
1.. => none
.1. => none
. => none
 => none
+1. => none
 1. => none
1a. => none
cyrus.cache => none
";

#[test]
fn uids_of_names(rt: HostRuntime) -> Result<(), Fail> {
    for row in NAMES.lines() {
        let Some((name, uid)) = row_parts(row) else {
            return Err("a row without a uid".into());
        };
        assert_eq!(rt; uid_of_name(name), uid, "{name}");
        if let Some(uid) = uid {
            assert_eq!(rt; message_name(uid).as_str(), name);
        }
    }
    Ok(())
}
