//! The head of a web page of a history, up to its lines. The policy lets it load nothing, and do nothing but what the
//! style and the script say that have these sums: the SHA-256 of what stands within their elements, in base64.

use crate::page_body::BODY;
use crate::page_drawing::DRAWING;
use crate::page_looking::LOOKING;
use crate::page_reading::READING;
use crate::page_style::STYLE;

const OPENING: &str = "<!doctype html>
<html lang='en'>
<meta charset='utf-8'>
<meta name='viewport' content='width=device-width'>
<meta http-equiv='Content-Security-Policy' content=\"default-src 'none'; base-uri 'none'; form-action 'none';
 style-src 'sha256-OIAfSA+J3ZhvNoH39CcBOOgrFjWtXV6y8iFTRMEYGZA=';
 script-src 'sha256-2rR876ZY+gA33k6IW7XHkQjdD7NKWW/PetEEQ4Di0Ig='\">
<title>A history</title>
<style>";

/// The parts of the head, one behind the other. It ends within an element that holds text.
pub(crate) fn page_parts<'a>() -> [&'a str; 9] {
    [
        OPENING,
        STYLE,
        "</style>\n<script>",
        READING,
        DRAWING,
        LOOKING,
        "</script>\n",
        BODY,
        "<p id='history' hidden>",
    ]
}
