//! Values that are endpoints.

ghost use Rattle.std.specs.Prelude.{◌≡◌, Some, IfSome, IfNone};
ghost use Rattle.clap.specs.Words.{found_of, one_text};
ghost use Rattle.lk_base.specs.Endpoint.{IsEndpoint};
ghost use Rattle.lk_base.specs.declared.endpoint.Endpoint.{Endpoint};
ghost use Rattle.link_lines.specs.Words.{endpoint_text_of};

use clap::ArgMatches;
use link_lines::endpoint_of;
use lk_base::Endpoint;
use std::str::FromStr;

/// The endpoint of this name; none where its value is no endpoint.
pub(crate) fn endpoint_in(matches: &ArgMatches<'_>, id: &str) -> Option<Endpoint>
    ensures some { IfSome result (λ at. IsEndpoint at × (one_text (found_of matches.now) id.now ≡ Some (endpoint_text_of at))) }
    ensures none { IfNone result ((at : Endpoint) → IsEndpoint at
        → one_text (found_of matches.now) id.now ≡ Some (endpoint_text_of at) → ⊥) }
{
    let word = matches.get_one::<EndpointWord>(id)?;
    Some(word.0)
}

// A word that is an endpoint's text.
#[derive(Clone, Copy)]
struct EndpointWord(Endpoint);

// The word is no endpoint's text.
#[derive(Clone, Copy)]
struct NoEndpoint;

impl FromStr for EndpointWord {
    type Err = NoEndpoint;

    ghost use Rattle.std.specs.Net.Grammar.{Parses};
    ghost use Rattle.link_words.specs.EndpointWords.{Spells};

    ghost from_str_gives = { Parses Spells };

    fn from_str(word: &str) -> Result<EndpointWord, NoEndpoint> {
        match endpoint_of(word.as_bytes()) {
            Some(at) => Ok(EndpointWord(at)),
            None => Err(NoEndpoint),
        }
    }
}
