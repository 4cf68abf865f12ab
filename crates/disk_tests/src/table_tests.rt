//! The limit on files that a table tells.
use disk_trait::limit_in;

#[test]
fn a_limit_on_files_is_read_from_the_table(rt: HostRuntime) {
    let head = "Limit                     Soft Limit           Hard Limit           Units     \n";
    let time = "Max cpu time              60                   unlimited            seconds   \n";
    let none = "Max file size             unlimited            unlimited            bytes     \n";
    let some = "Max file size             8192                 16384                bytes     \n";
    let alloc = rt.alloc();
    for (line, limit) in [(none, None), (some, Some(8_192)), ("", None)] {
        let found = match format!(in alloc; "{head}{time}{line}") {
            Ok(table) => limit_in(&table),
            Err(_) => Some(0),
        };
        assert!(rt; found == limit, "{line}");
    }
}
