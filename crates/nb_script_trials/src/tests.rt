use nb_base::Text;
use nb_script::{ScriptFault, ScriptKind, TokenKind, parse, print, tokens};
use std::alloc::Global;
use std::test::Fail;

const SHOP: &str = "message Shop.PlaceOrder { orderId: text, amount: int }
message Charge { orderId: text, amount: int }
message OrderPaid { orderId: text }
message Cancel { orderId: text }
message OrderExpired { orderId: text }
message Credit { account: text, amount: int }
message Work { } message Bad { } message No { } message Ask { } message Told { }
saga Order on orderId: text {
  fields { total: int, paid: bool }
  start Shop.PlaceOrder by orderId {
    set total = saga.total + msg.amount;
    send Charge { orderId: msg.orderId, amount: msg.amount };
    timeout 3600 OrderExpired { orderId: msg.orderId };
  }
  find OrderPaid by orderId { set paid = true; complete; }
  find Cancel by orderId { complete; }
  timeout OrderExpired { add row(\"expired\") by 1; complete; }
}
handler OrderPaid { add row(\"paid\") by 1; }
handler Credit { add row(msg.account) by msg.amount; }
handler Work { if retries < 2 { fail Busy \"later\"; } add row(\"done\") by 1; }
handler Bad { fail Broken \"always\"; }
handler No { reject Refused \"never\"; }
handler Ask { reply Told { }; }
";

/// How many items a script has, or why it is none.
fn items(alloc: Global, text: &str) -> Result<usize, ScriptFault> {
    let script = parse(alloc, text.as_bytes())?;
    Ok(script.items().len())
}

fn refusal(line: u32, column: u32, kind: ScriptKind) -> Result<usize, ScriptFault> {
    Err(ScriptFault { line, column, kind })
}

#[test]
fn a_shop_is_a_script(rt: HostRuntime) -> Result<(), Fail> {
    assert_eq!(rt; items(rt.alloc(), SHOP), Ok(18));
    Ok(())
}

#[test]
fn a_saga_with_revisions_is_a_script(rt: HostRuntime) -> Result<(), Fail> {
    let text = "saga S revision 2 on a: int { fields { b: int since 2 = - 1, since: bool, } }";
    assert_eq!(rt; items(rt.alloc(), text), Ok(1));
    Ok(())
}

#[test]
fn a_field_needs_a_colon(rt: HostRuntime) -> Result<(), Fail> {
    assert_eq!(rt;
        items(rt.alloc(), "message A { x int }"),
        refusal(1, 15, ScriptKind::Expected)
    );
    Ok(())
}

#[test]
fn a_bad_token_behind_a_fault_does_not_hide_it(rt: HostRuntime) -> Result<(), Fail> {
    assert_eq!(rt;
        items(rt.alloc(), "message A { x int } #"),
        refusal(1, 15, ScriptKind::Expected)
    );
    assert_eq!(rt;
        items(rt.alloc(), "message \"abc"),
        refusal(1, 9, ScriptKind::BadText)
    );
    Ok(())
}

#[test]
fn comparisons_stand_alone(rt: HostRuntime) -> Result<(), Fail> {
    let text = "handler A { let a = 1 == 2 == 3; }";
    assert_eq!(rt;
        items(rt.alloc(), text),
        refusal(1, 28, ScriptKind::Expected)
    );
    Ok(())
}

#[test]
fn the_greatest_number(rt: HostRuntime) -> Result<(), Fail> {
    let alloc = rt.alloc();
    assert_eq!(rt;
        items(alloc, "handler A { let a = 9223372036854775807; }"),
        Ok(1)
    );
    assert_eq!(rt;
        items(alloc, "handler A { let a = 9223372036854775808; }"),
        refusal(1, 21, ScriptKind::BadNumber)
    );
    Ok(())
}

#[test]
fn spans_of_a_plus_plus_b(rt: HostRuntime) -> Result<(), Fail> {
    let spans = tokens(rt.alloc(), b"a++ b")?;
    let spans = spans.as_slice();
    assert_eq!(rt; spans.len(), 3);
    assert_eq!(rt; spans[0].kind, TokenKind::Word);
    assert_eq!(rt; (spans[0].from, spans[0].to), (0, 1));
    assert_eq!(rt; (spans[1].from, spans[1].to), (1, 3));
    assert_eq!(rt; (spans[2].from, spans[2].to), (4, 5));
    Ok(())
}

#[test]
fn a_text_that_is_no_utf_8(rt: HostRuntime) -> Result<(), Fail> {
    let bytes = [10, 97, 255].as_slice();
    let fault = tokens(rt.alloc(), bytes).err().ok_or("refused")?;
    assert_eq!(rt; (fault.line, fault.column), (2, 2));
    assert_eq!(rt; fault.kind, ScriptKind::NotUtf8);
    Ok(())
}

/// The text that is printed of a script.
fn printed(alloc: Global, text: &str) -> Result<Text, Fail> {
    let script = parse(alloc, text.as_bytes())?;
    Ok(print(alloc, &script)?)
}

/// A handler with one `let`.
fn let_of(alloc: Global, value: &str) -> Result<String, Fail> {
    Ok(format!(in alloc; "handler A {{ let a = {value}; }}")?)
}

/// What is printed of a value.
fn printed_value(alloc: Global, value: &str) -> Result<String, Fail> {
    let text = printed(alloc, let_of(alloc, value)?.as_str())?;
    let text = text.as_str();
    let text = text.strip_prefix("handler A { let a = ").ok_or("a let")?;
    let value = text.strip_suffix(" ; } \n").ok_or("its end")?;
    Ok(String::from_str(alloc, value)?)
}

/// How many items a script has whose one value this is, or why it is none.
fn valued(alloc: Global, value: &str) -> Result<usize, Fail> {
    let text = let_of(alloc, value)?;
    Ok(items(alloc, text.as_str())?)
}

#[test]
fn the_shop_is_read_back(rt: HostRuntime) -> Result<(), Fail> {
    let alloc = rt.alloc();
    let once = printed(alloc, SHOP)?;
    assert_eq!(rt; items(alloc, once.as_str()), Ok(18));
    let twice = printed(alloc, once.as_str())?;
    assert_eq!(rt; twice.as_str(), once.as_str());
    Ok(())
}

#[test]
fn a_script_is_copied(rt: HostRuntime) -> Result<(), Fail> {
    let alloc = rt.alloc();
    let script = parse(alloc, SHOP.as_bytes())?;
    let copy = script.copy(alloc)?;
    assert_eq!(rt; copy.items().len(), 18);
    assert_eq!(rt; copy.text(), SHOP);
    assert_eq!(rt; copy.place(57).line, 2);
    Ok(())
}

#[test]
fn a_message_is_printed(rt: HostRuntime) -> Result<(), Fail> {
    let text = printed(
        rt.alloc(),
        "// one\nmessage Shop.A { row: int, b: text, } message B { }",
    )?;
    assert_eq!(rt;
        text.as_str(),
        "message Shop . A { row : int , b : text } \nmessage B { } \n"
    );
    Ok(())
}

#[test]
fn a_saga_is_printed(rt: HostRuntime) -> Result<(), Fail> {
    let text = printed(
        rt.alloc(),
        "saga S revision 2 on a: int { fields { b: int since 2 = - 0, c: int since 2 = -7 } }",
    )?;
    assert_eq!(rt;
        text.as_str(),
        "saga S revision 2 on a : int { fields { b : int since 2 = 0 , c : int since 2 = - 7 } } \n"
    );
    Ok(())
}

#[test]
fn parentheses_that_are_needed(rt: HostRuntime) -> Result<(), Fail> {
    let alloc = rt.alloc();
    assert_eq!(rt;
        printed_value(alloc, "((1 + 2)) * (3 * (4))")?.as_str(),
        "( 1 + 2 ) * ( 3 * 4 )"
    );
    assert_eq!(rt;
        printed_value(alloc, "(1 - 2) - (3 - 4)")?.as_str(),
        "1 - 2 - ( 3 - 4 )"
    );
    assert_eq!(rt;
        printed_value(alloc, "(1 == 2) == (3 == 4)")?.as_str(),
        "( 1 == 2 ) == ( 3 == 4 )"
    );
    assert_eq!(rt;
        printed_value(alloc, "-(-(1 + 2))")?.as_str(),
        "- - ( 1 + 2 )"
    );
    Ok(())
}

#[test]
fn escapes_are_printed(rt: HostRuntime) -> Result<(), Fail> {
    let value = printed_value(rt.alloc(), r#""a\"b\\c\n\r\tü""#)?;
    assert_eq!(rt; value.as_str(), r#""a\"b\\c\n\r\tü""#);
    Ok(())
}

#[test]
fn a_number_ends_at_its_digits(rt: HostRuntime) -> Result<(), Fail> {
    let alloc = rt.alloc();
    assert_eq!(rt;
        items(alloc, "handler A { let a = 12abc; }"),
        refusal(1, 23, ScriptKind::Expected)
    );
    assert_eq!(rt; items(alloc, "handler A { after 5send A {}; }"), Ok(1));
    assert_eq!(rt; valued(alloc, "007")?, 1);
    assert_eq!(rt;
        items(alloc, "handler A { let a = -9223372036854775808; }"),
        refusal(1, 22, ScriptKind::BadNumber)
    );
    Ok(())
}

#[test]
fn comments_end_at_a_line_feed(rt: HostRuntime) -> Result<(), Fail> {
    let alloc = rt.alloc();
    assert_eq!(rt; items(alloc, "// a\rmessage"), Ok(0));
    assert_eq!(rt;
        items(alloc, "// a\n message"),
        refusal(2, 9, ScriptKind::Expected)
    );
    assert_eq!(rt;
        items(alloc, "\u{feff}"),
        refusal(1, 1, ScriptKind::BadToken)
    );
    Ok(())
}

#[test]
fn columns_count_bytes(rt: HostRuntime) -> Result<(), Fail> {
    assert_eq!(rt;
        items(rt.alloc(), "handler A { let a = \"ü\" \"b\"; }"),
        refusal(1, 26, ScriptKind::Expected)
    );
    Ok(())
}

#[test]
fn keywords_name_fields_alone(rt: HostRuntime) -> Result<(), Fail> {
    let alloc = rt.alloc();
    assert_eq!(rt;
        items(alloc, "message A { row: int, message: text, }"),
        Ok(1)
    );
    assert_eq!(rt;
        items(alloc, "message row { }"),
        refusal(1, 9, ScriptKind::Expected)
    );
    assert_eq!(rt;
        items(alloc, "message A { a: int,, }"),
        refusal(1, 20, ScriptKind::Expected)
    );
    Ok(())
}

/// So many of a text, one behind the other.
fn row_of(alloc: Global, text: &str, count: usize) -> Result<String, Fail> {
    let mut row = String::new(alloc);
    for _ in 0..count {
        row.push_str(text)?;
    }
    Ok(row)
}

/// A value in so many parentheses.
fn nested(alloc: Global, count: usize) -> Result<String, Fail> {
    let open = row_of(alloc, "(", count)?;
    let close = row_of(alloc, ")", count)?;
    let text = format!(in alloc; "handler A {{ let a = {open}1{close}; }}")?;
    Ok(text)
}

#[test]
fn levels_are_counted(rt: HostRuntime) -> Result<(), Fail> {
    let alloc = rt.alloc();
    assert_eq!(rt; items(alloc, nested(alloc, 99)?.as_str()), Ok(1));
    assert_eq!(rt;
        items(alloc, nested(alloc, 100)?.as_str()),
        refusal(1, 120, ScriptKind::TooDeep)
    );
    Ok(())
}

#[test]
fn each_else_if_is_a_level(rt: HostRuntime) -> Result<(), Fail> {
    let alloc = rt.alloc();
    let chain = row_of(alloc, "else if true {} ", 98)?;
    let text = format!(in alloc; "handler A {{ if true {{}} {chain}}}")?;
    assert_eq!(rt; items(alloc, text.as_str()), Ok(1));
    let text = format!(in alloc; "handler A {{ if true {{}} {chain}else if true {{}} }}")?;
    assert_eq!(rt;
        items(alloc, text.as_str()),
        refusal(1, 1605, ScriptKind::TooDeep)
    );
    Ok(())
}

#[test]
fn operators_are_counted(rt: HostRuntime) -> Result<(), Fail> {
    let alloc = rt.alloc();
    let sum = row_of(alloc, "1+", 1000)?;
    let text = format!(in alloc; "handler A {{ let a = {sum}1; }}")?;
    assert_eq!(rt; items(alloc, text.as_str()), Ok(1));
    let text = format!(in alloc; "handler A {{ let a = {sum}1+1; }}")?;
    assert_eq!(rt;
        items(alloc, text.as_str()),
        refusal(1, 2022, ScriptKind::TooDeep)
    );
    Ok(())
}

#[test]
fn a_text_that_is_too_long(rt: HostRuntime) -> Result<(), Fail> {
    let alloc = rt.alloc();
    let blanks = row_of(alloc, " ", 1048576)?;
    assert_eq!(rt; items(alloc, blanks.as_str()), Ok(0));
    let more = format!(in alloc; "{blanks} ")?;
    assert_eq!(rt;
        items(alloc, more.as_str()),
        refusal(1, 1, ScriptKind::TooLong)
    );
    Ok(())
}
