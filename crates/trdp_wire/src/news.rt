//! At which sockets something may be.

ghost use Rattle.std.specs.Prelude.{◌≡◌, slice_set};
ghost use Rattle.trdp_wire.specs.News.{has_news, with_news};

/// Whether there is news of the socket of that number; always true if none is kept of it.
pub fn has_news(news: &[bool], socket: usize) -> bool
    ensures { result ≡ has_news news.now socket }
{
    news.get(socket).copied().unwrap_or(true)
}

/// Sets whether there is news of the socket of that number, if any is kept of it.
pub fn set_news(news: &mut [bool], socket: usize, is_there: bool)
    ensures { news.new ≡ slice_set news.old socket is_there }
{
    if socket < news.len() {
        news[socket] = is_there;
    }
}

/// Notes that there is news of these sockets.
pub fn note_told(news: &mut [bool], sockets: &[usize])
    ensures { news.new ≡ with_news sockets.now news.old }
{
    for socket in sockets.iter() {
        set_news(news, *socket, true);
    }
}
