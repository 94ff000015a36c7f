//! The static files of the site, which are the same for all users.

/// The login page (Jakarta Servlet 6.0, section 13.6.3).
pub const LOGIN: &str = r#"<!doctype html>
<html lang="en">
<meta charset="utf-8">
<meta name="viewport" content="width=device-width, initial-scale=1">
<link rel="stylesheet" href="/style.css">
<title>Log in</title>
<main>
<h1><a href="/">Guestbook</a></h1>
<form class="card" method="post" action="/j_security_check">
<label>Name <input name="j_username" autocomplete="username" autocapitalize="none" required autofocus></label>
<label>Password <input name="j_password" type="password" autocomplete="current-password" required></label>
<button>Log in</button>
</form>
</main>
</html>
"#;

/// The page after a failed login.
pub const LOGIN_FAILED: &str = r#"<!doctype html>
<html lang="en">
<meta charset="utf-8">
<meta name="viewport" content="width=device-width, initial-scale=1">
<link rel="stylesheet" href="/style.css">
<title>Log in</title>
<main>
<h1><a href="/">Guestbook</a></h1>
<p class="fault" role="alert">This name and this password do not belong together.</p>
<form class="card" method="post" action="/j_security_check">
<label>Name <input name="j_username" autocomplete="username" autocapitalize="none" required autofocus></label>
<label>Password <input name="j_password" type="password" autocomplete="current-password" required></label>
<button>Log in</button>
</form>
</main>
</html>
"#;

/// The style sheet, for phones first, with a light and a dark mode.
pub const STYLE: &str =
    r#":root { color-scheme: light dark; --ink: #1c2330; --paper: #f6f4ef; --card: #fff; --line: #d9d4c7; --accent: #2f6f4f; }
@media (prefers-color-scheme: dark) { :root { --ink: #e9e6df; --paper: #171a1f; --card: #21262d; --line: #39404a; --accent: #7fc8a0; } }
* { box-sizing: border-box; }
body { margin: 0; border-top: .4rem solid var(--accent); background: var(--paper); color: var(--ink); font: 1.05rem/1.5 system-ui, sans-serif; }
main { max-width: 38rem; margin: 0 auto; padding: 1rem; }
h1 { font-size: 1.75rem; line-height: 1.2; letter-spacing: -.01em; margin: .5rem 0 1rem; }
h1 a { color: inherit; text-decoration: none; }
.card { background: var(--card); border: 1px solid var(--line); border-radius: .75rem; padding: 1rem; margin: 0 0 1rem; box-shadow: 0 1px 3px rgb(0 0 0 / .06); }
.greeting { display: flex; justify-content: space-between; align-items: center; gap: 1rem; margin: 0 0 1rem; }
.entries { list-style: none; padding: 0; margin: 0; }
.words { margin: 0; white-space: pre-wrap; overflow-wrap: anywhere; }
.from { display: flex; flex-wrap: wrap; align-items: center; gap: 0 .75rem; min-height: 2.5rem; margin: .6rem 0 -.6rem; border-top: 1px solid var(--line); font-size: .9rem; }
.author { margin: 0; font-weight: 600; color: var(--accent); overflow-wrap: anywhere; }
time { opacity: .7; }
.from form { margin-left: auto; }
label { display: block; margin: 0 0 .75rem; }
input:not([type=hidden]), textarea { display: block; width: 100%; margin-top: .25rem; padding: .6rem; font: inherit; color: inherit; background: var(--paper); border: 1px solid var(--line); border-radius: .5rem; }
button, .button { display: inline-block; padding: .6rem 1.1rem; font: inherit; color: var(--card); background: var(--accent); border: 0; border-radius: .5rem; text-decoration: none; cursor: pointer; }
.plain { background: none; color: var(--accent); padding: .4rem 0; text-decoration: underline; }
:focus-visible { outline: 2px solid var(--accent); outline-offset: 2px; }
.fault { border-left: .3rem solid #b3423a; padding: .5rem .8rem; background: var(--card); }
footer { font-size: .85rem; opacity: .6; text-align: center; padding: 1rem 0; }
"#;
