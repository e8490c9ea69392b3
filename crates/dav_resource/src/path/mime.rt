//! The media type of a file, from its name.
ghost use Rattle.std.specs.Prelude.{◌≡◌, bytes_eq, map, IsTrue};
ghost use Rattle.std.specs.Char.{to_ascii_lowercase};
ghost use Rattle.dav_resource.specs.Mime.{after_last_dot, extension_of, type_of, mime_type_of};

/// The bytes after the last `.`, empty if there is none.
fn after_last_dot(name: &[u8]) -> &[u8]
    ensures { result.now ≡ after_last_dot name.now }
{
    let mut found: &[u8] = &[];
    let mut rest = name;
    while let [first, tail @ ..] = rest {
        rest = tail;
        if *first == b'.' {
            found = tail;
        }
    }
    found
}

/// The extension of a file name. A `.` that is the first character does not begin one.
fn extension_of(name: &[u8]) -> &[u8]
    ensures { result.now ≡ extension_of name.now }
{
    match name {
        [_, rest @ ..] => after_last_dot(rest),
        [] => &[],
    }
}

/// Whether the extension is this one, in any ASCII case. `wanted` is in lower case.
fn is_extension(extension: &[u8], wanted: &[u8]) -> bool
    requires { map to_ascii_lowercase wanted.now ≡ wanted.now }
    ensures { result ≡ bytes_eq (map to_ascii_lowercase extension.now) wanted.now }
{
    extension.eq_ignore_ascii_case(wanted)
}

/// The media type for an extension in any ASCII case.
fn type_of(extension: &[u8]) -> &'static str
    ensures { result.now ≡ type_of (map to_ascii_lowercase extension.now) }
{
    if is_extension(extension, b"html") || is_extension(extension, b"htm") {
        "text/html"
    } else if is_extension(extension, b"txt") {
        "text/plain"
    } else if is_extension(extension, b"css") {
        "text/css"
    } else if is_extension(extension, b"csv") {
        "text/csv"
    } else if is_extension(extension, b"js") {
        "text/javascript"
    } else if is_extension(extension, b"json") {
        "application/json"
    } else if is_extension(extension, b"xml") {
        "text/xml"
    } else if is_extension(extension, b"pdf") {
        "application/pdf"
    } else if is_extension(extension, b"png") {
        "image/png"
    } else if is_extension(extension, b"jpg") || is_extension(extension, b"jpeg") {
        "image/jpeg"
    } else if is_extension(extension, b"gif") {
        "image/gif"
    } else if is_extension(extension, b"svg") {
        "image/svg+xml"
    } else if is_extension(extension, b"mp3") {
        "audio/mpeg"
    } else if is_extension(extension, b"mp4") {
        "video/mp4"
    } else {
        "application/octet-stream"
    }
}

/// The media type of a file with this name.
pub(crate) fn mime_type_of(name: &[u8]) -> &'static str
    ensures { result.now ≡ mime_type_of name.now }
{
    type_of(extension_of(name))
}
