use asked_fields::{AskedField, Joint, joined_text, push_text};

#[test]
fn finds_the_parts_of_a_name(rt: HostRuntime) {
    let joined = AskedField::new(rt.alloc(), "customer+region", Some(Joint::Plus));
    assert!(rt; matches!(&joined, Ok(field) if field.parts.len() == 2));
    let alone = AskedField::new(rt.alloc(), "customer+region", None);
    assert!(rt; matches!(&alone, Ok(field) if field.parts.is_empty()));
    let times = AskedField::new(rt.alloc(), "*", Some(Joint::Times));
    assert!(rt; matches!(&times, Ok(field) if field.parts.len() == 2));
}

#[test]
fn puts_texts_together(rt: HostRuntime) {
    let mut joined = Vec::new(rt.alloc());
    assert_eq!(rt; joined_text(&joined), b"".as_slice());
    assert!(rt; push_text(&mut joined, Joint::Plus, b"a+b\\").is_ok());
    assert!(rt; push_text(&mut joined, Joint::Plus, b"").is_ok());
    assert!(rt; push_text(&mut joined, Joint::Plus, b"c*d").is_ok());
    assert_eq!(rt; joined_text(&joined), b"a\\+b\\\\++c*d".as_slice());
    assert_eq!(rt; Joint::Times.byte(), b'*');
}
