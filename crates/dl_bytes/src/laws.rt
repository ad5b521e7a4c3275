//! Laws: the constants of this crate are the limits that the definitions name.

ghost use Rattle.std.specs.Prelude.{◌≡◌};
ghost use Rattle.dl_bytes.specs.Limits as limit;

use crate::limits::{
    ADMITTED_LIMIT, APP_LIMIT, ARGS_LIMIT, CALL_LIMIT, CLAIM_TEXT_LIMIT, CLIENT_LIMIT,
    CONTEXT_LIMIT, FRAME_LIMIT, INJECTION_LIMIT, LAST_VERSION, MESSAGE_LIMIT, OPEN_CLIENT_LIMIT,
    PAYLOAD_LIMIT, REQUEST_LIMIT, RING_LIMIT, TEXT_LIMIT, WRITER_CALL_LIMIT, WRITER_LIMIT,
};

/// The constants are the limits that the definitions name.
pub fn constants_are_the_limits()
    ensures admitted { ADMITTED_LIMIT ≡ limit.admitted_limit }
    ensures app { APP_LIMIT ≡ limit.app_limit }
    ensures args { ARGS_LIMIT ≡ limit.args_limit }
    ensures call { CALL_LIMIT ≡ limit.call_limit }
    ensures claim_text { CLAIM_TEXT_LIMIT ≡ limit.claim_text_limit }
    ensures client { CLIENT_LIMIT ≡ limit.client_limit }
    ensures context { CONTEXT_LIMIT ≡ limit.context_limit }
    ensures frame { FRAME_LIMIT ≡ limit.frame_limit }
    ensures injection { INJECTION_LIMIT ≡ limit.injection_limit }
    ensures last_version { LAST_VERSION ≡ limit.last_version }
    ensures message { MESSAGE_LIMIT ≡ limit.message_limit }
    ensures open_client { OPEN_CLIENT_LIMIT ≡ limit.open_client_limit }
    ensures payload { PAYLOAD_LIMIT ≡ limit.payload_limit }
    ensures request { REQUEST_LIMIT ≡ limit.request_limit }
    ensures ring { RING_LIMIT ≡ limit.ring_limit }
    ensures text { TEXT_LIMIT ≡ limit.text_limit }
    ensures writer_call { WRITER_CALL_LIMIT ≡ limit.writer_call_limit }
    ensures writer { WRITER_LIMIT ≡ limit.writer_limit }
{}
