//! The names of the headers, as the NServiceBus documentation on message headers lists them.

pub use nb_base::MESSAGE_ID;

/// `Send`, `Publish` or `Reply`.
pub const MESSAGE_INTENT: &str = "NServiceBus.MessageIntent";

/// The conversation to which the message belongs.
pub const CONVERSATION_ID: &str = "NServiceBus.ConversationId";

/// What ties a reply to the message that asked.
pub const CORRELATION_ID: &str = "NServiceBus.CorrelationId";

/// The id of the message during whose handling this one was sent.
pub const RELATED_TO: &str = "NServiceBus.RelatedTo";

/// The endpoint that sent the message.
pub const ORIGINATING_ENDPOINT: &str = "NServiceBus.OriginatingEndpoint";

/// The queue that takes replies.
pub const REPLY_TO_ADDRESS: &str = "NServiceBus.ReplyToAddress";

/// How the body is written.
pub const CONTENT_TYPE: &str = "NServiceBus.ContentType";

/// The message's types, parted by semicolons.
pub const ENCLOSED_MESSAGE_TYPES: &str = "NServiceBus.EnclosedMessageTypes";

/// When the message was sent.
pub const TIME_SENT: &str = "NServiceBus.TimeSent";

/// The id of the saga that sent the message.
pub const ORIGINATING_SAGA_ID: &str = "NServiceBus.OriginatingSagaId";

/// The type of the saga that sent the message.
pub const ORIGINATING_SAGA_TYPE: &str = "NServiceBus.OriginatingSagaType";

/// `True` on a timeout of a saga.
pub const IS_SAGA_TIMEOUT_MESSAGE: &str = "NServiceBus.IsSagaTimeoutMessage";

/// The id of the saga to which the message goes.
pub const SAGA_ID: &str = "NServiceBus.SagaId";

/// The type of the saga to which the message goes.
pub const SAGA_TYPE: &str = "NServiceBus.SagaType";

/// The queue in which the message failed.
pub const FAILED_Q: &str = "NServiceBus.FailedQ";

/// When the message failed.
pub const TIME_OF_FAILURE: &str = "NServiceBus.TimeOfFailure";

/// The endpoint that failed to handle the message.
pub const PROCESSING_ENDPOINT: &str = "NServiceBus.ProcessingEndpoint";

/// The fault's name.
pub const EXCEPTION_TYPE: &str = "NServiceBus.ExceptionInfo.ExceptionType";

/// The fault's text.
pub const EXCEPTION_MESSAGE: &str = "NServiceBus.ExceptionInfo.Message";

/// The round of delayed retries, from 0 to 1000.
pub const RETRIES: &str = "NServiceBus.Retries";

/// When that round was begun.
pub const RETRIES_TIMESTAMP: &str = "NServiceBus.Retries.Timestamp";
