// A field without octets, read as a number and as a date. In a table file it is a null, so no whole run reads one so.

use qw_types::date_text::read_date;
use qw_types::numeral::read_number;
use qw_types::{FieldFault, Ty};

#[test]
fn an_empty_field_is_none(rt: HostRuntime) {
    assert_eq!(rt;
        (read_number(b"", &Ty::Integer), read_date(b"")),
        (Err(FieldFault::NotNumber), Err(FieldFault::NotDate))
    );
}
