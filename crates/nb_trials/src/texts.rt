//! The script and the settings of most trials.

/// A script with orders, which are sagas, with credits, and with handlers that fail.
pub const SCRIPT: &str = r#"message Shop.PlaceOrder { orderId: text, amount: int }
message Charge { orderId: text, amount: int }
message OrderPaid { orderId: text }
message Cancel { orderId: text }
message OrderExpired { orderId: text }
message Credit { account: text, amount: int }
message Work { } message Bad { } message No { } message Ask { } message Told { }
saga Order on orderId: text {
  fields { total: int, paid: bool }
  start Shop.PlaceOrder by orderId {
    set total = saga.total + msg.amount;
    send Charge { orderId: msg.orderId, amount: msg.amount };
    timeout 3600 OrderExpired { orderId: msg.orderId };
  }
  find OrderPaid by orderId { set paid = true; complete; }
  find Cancel by orderId { complete; }
  timeout OrderExpired { add row("expired") by 1; complete; }
}
handler OrderPaid { add row("paid") by 1; }
handler Credit { add row(msg.account) by msg.amount; }
handler Work { if retries < 2 { fail Busy "later"; } add row("done") by 1; }
handler Bad { fail Broken "always"; }
handler No { reject Refused "never"; }
handler Ask { reply Told { }; }
"#;

/// Settings of the endpoint Sales, with the default retries.
pub const SETTINGS: &str = r#"endpoint = "Sales"
[recoverability]
[routes]
Charge = "Billing"
"#;

/// The same settings, with one immediate and one delayed retry.
pub const FEW_RETRIES: &str = r#"endpoint = "Sales"
[recoverability]
immediate = 1
delayed = 1
[routes]
Charge = "Billing"
"#;

/// The same settings, without any retry.
pub const NO_RETRIES: &str = r#"endpoint = "Sales"
[recoverability]
immediate = 0
delayed = 0
[routes]
Charge = "Billing"
"#;
