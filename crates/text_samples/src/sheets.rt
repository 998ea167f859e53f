use sheet::sheets::Sheet;
use sheet::sheets::errors::SheetError;

#[test]
fn names_are_added_in_order(rt: HostRuntime) {
    let mut sheet = Sheet::blank();
    assert_eq!(rt; sheet.count(), 0);
    assert_eq!(rt; sheet.add(b"head"), Ok(()));
    assert_eq!(rt; sheet.add(b"-0"), Ok(()));
    assert_eq!(rt; sheet.count(), 2);
    assert_eq!(rt; sheet.find(b"-0"), Some(1));
    assert_eq!(rt; sheet.find(b"body"), None);
    assert!(rt; sheet.name(1) == Some(b"-0".as_slice()) && sheet.name(2).is_none());
}

#[test]
fn what_is_no_new_name_is_refused(rt: HostRuntime) {
    let mut sheet = Sheet::blank();
    assert_eq!(rt; sheet.add(b""), Err(SheetError::NotAName));
    assert_eq!(rt; sheet.add(b"Head"), Err(SheetError::NotAName));
    assert_eq!(rt; sheet.add(b"thirteen-byte"), Err(SheetError::NotAName));
    assert_eq!(rt; sheet.add(b"twelve-bytes"), Ok(()));
    assert_eq!(rt; sheet.add(b"twelve-bytes"), Err(SheetError::Repeated(0)));
    for letter in b'a'..b'p' {
        assert_eq!(rt; sheet.add(&[letter]), Ok(()));
    }
    assert_eq!(rt; sheet.add(b"z"), Err(SheetError::Full));
    assert_eq!(rt; sheet.count(), 16);
}
