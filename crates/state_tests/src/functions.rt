//! The texts of the functions that instructions call.

use std::alloc::{AllocError, Global};

/// `$RC`, `$RS` and `$RX`, as they are sent with their first call.
static RC: &str =
    "$RC=function(b,s){s=document.getElementById(s);s.parentNode.removeChild(s);b=document.getElementById(b);if(b){var o=b.previousSibling,p=o.parentNode,n=b,d=0,t;for(;n;n=t){t=n.nextSibling;if(n.nodeType===8){var x=n.data;if(x===\"/$\"){if(d===0)break;d--}else if(x===\"$\"||x===\"$?\"||x===\"$!\")d++}p.removeChild(n)}for(;s.firstChild;)p.insertBefore(s.firstChild,n);o.data=\"$\"}};";

static RS: &str =
    "$RS=function(s,p){s=document.getElementById(s);p=document.getElementById(p);for(s.parentNode.removeChild(s);s.firstChild;)p.parentNode.insertBefore(s.firstChild,p);p.parentNode.removeChild(p)};";

static RX: &str =
    "$RX=function(b,d){b=document.getElementById(b);if(b){b.previousSibling.data=\"$!\";if(d)b.dataset.dgst=d}};";

/// The bytes of a page in which `RC`, `RS` and `RX` before a call stand for the function's text.
pub(super) fn sent(alloc: Global, row: &str) -> Result<String, AllocError> {
    let first = format!(in alloc; "{RC}$RC(")?;
    let sent = row.replace(alloc, "RC$RC(", first.as_str())?;
    let first = format!(in alloc; "{RS}$RS(")?;
    let sent = sent.as_str().replace(alloc, "RS$RS(", first.as_str())?;
    let first = format!(in alloc; "{RX}$RX(")?;
    sent.as_str().replace(alloc, "RX$RX(", first.as_str())
}
