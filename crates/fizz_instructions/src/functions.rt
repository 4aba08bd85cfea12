//! The functions that a page's scripts call.

ghost use Rattle.std.specs.Prelude.{◌≡◌};
ghost use Rattle.fizz_instructions.specs.Functions.{name_of, definition_of};

/// A function that a page's scripts call, by React's name for it.
#[derive(Clone, Copy, Debug, PartialEq, Eq)]
pub enum Function {
    /// `$RC` puts the content of a boundary into its place.
    CompleteBoundary,
    /// `$RS` puts a segment into the place of its placeholder.
    CompleteSegment,
    /// `$RX` marks a boundary that the client is to render.
    ClientRenderBoundary,
}

const COMPLETE_BOUNDARY: &str =
    r#"$RC=function(b,s){s=document.getElementById(s);s.parentNode.removeChild(s);b=document.getElementById(b);if(b){var o=b.previousSibling,p=o.parentNode,n=b,d=0,t;for(;n;n=t){t=n.nextSibling;if(n.nodeType===8){var x=n.data;if(x==="/$"){if(d===0)break;d--}else if(x==="$"||x==="$?"||x==="$!")d++}p.removeChild(n)}for(;s.firstChild;)p.insertBefore(s.firstChild,n);o.data="$"}};"#;

const COMPLETE_SEGMENT: &str =
    r#"$RS=function(s,p){s=document.getElementById(s);p=document.getElementById(p);for(s.parentNode.removeChild(s);s.firstChild;)p.parentNode.insertBefore(s.firstChild,p);p.parentNode.removeChild(p)};"#;

const CLIENT_RENDER_BOUNDARY: &str =
    r#"$RX=function(b,d){b=document.getElementById(b);if(b){b.previousSibling.data="$!";if(d)b.dataset.dgst=d}};"#;

impl Function {
    /// The definition of the function, in ECMAScript, on one line.
    #[tactic(auto, unfolding(crate::specs::Functions::complete_boundary_definition, crate::specs::Functions::complete_segment_definition, crate::specs::Functions::client_render_definition))]
    pub fn definition(self) -> &'static str
        ensures { result.now ≡ definition_of self }
    {
        match self {
            Function::CompleteBoundary => COMPLETE_BOUNDARY,
            Function::CompleteSegment => COMPLETE_SEGMENT,
            Function::ClientRenderBoundary => CLIENT_RENDER_BOUNDARY,
        }
    }

    pub fn name(self) -> &'static str
        ensures { result.now ≡ name_of self }
    {
        match self {
            Function::CompleteBoundary => "$RC",
            Function::CompleteSegment => "$RS",
            Function::ClientRenderBoundary => "$RX",
        }
    }
}
