ghost use Rattle.std.specs.Prelude.{◌≡◌, length, map};
ghost use Rattle.role_driver.specs.VectorRoom.{HasRoomFor};
ghost use Rattle.role_driver.specs.inner.Watchers.{task_of, task_at, HasLooked};

use crate::watcher::Watcher;
use action_manager::News;
use std::snapshot::Snapshot;
use std::sync::Wait;
use std::sync::atomic::{AtomicBool, Ordering};
use std::thread::{Promise, PromisedHandle, Scope, Threads};

/// The watcher comes back, with the task that it had, and has looked.
#[derive(Drop)]
pub struct Returns {
    pub watcher: Snapshot<Watcher>,
}

impl Promise<Watcher> for Returns {
    ghost use Rattle.std.specs.Prelude.{◌≡◌};
    ghost use Rattle.role_driver.specs.inner.Watchers.{task_of, HasLooked};

    ghost kept_by = { λ p r. (task_of r ≡ task_of p.watcher.value) × HasLooked r };
}

/// A thread that a watcher looks in, or the watcher where none could be started.
pub type Post = Result<PromisedHandle<Watcher, Returns>, Watcher>;

/// Watchers, with room for their threads, and for them when they come back.
pub struct Watch {
    pub watchers: Vec<Watcher>,
    pub posts: Vec<Post>,
    pub back: Vec<Watcher>,
}

/// Starts a thread in which a watcher looks until the flag is raised. Where none can be started, the watcher looks once and comes back.
fn post<'s, E, R: Threads + Wait + Sync>(
    scope: &'s Scope<'s, E>,
    rt: &'s R,
    watcher: Watcher,
    news: &'s News,
    over: &'s AtomicBool,
) -> Post
    ensures { task_at (λ h. h.promise.watcher.value) result ≡ task_of watcher }
{
    let promise = Returns {
        watcher: Snapshot::of(&watcher),
    };
    match scope.spawn_with(
        promise,
        move || -> Watcher
            ensures { (task_of result ≡ task_of watcher) × HasLooked result }
        { watcher.watch(rt, news, over) },
    ) {
        Ok(child) => Ok(child),
        Err(refused) => {
            over.store(true, Ordering::SeqCst);
            Err((refused.value)())
        }
    }
}

/// Starts a thread for each watcher.
pub fn post_all<'s, E, R: Threads + Wait + Sync>(
    scope: &'s Scope<'s, E>,
    rt: &'s R,
    watchers: Vec<Watcher>,
    mut posts: Vec<Post>,
    news: &'s News,
    over: &'s [AtomicBool],
) -> Vec<Post>
    requires room { HasRoomFor (length watchers.items) posts }
    requires flags { length over.now ≡ length watchers.items }
    ensures { map (λ p. task_at (λ h. h.promise.watcher.value) p) result.items ≡ map task_of watchers.items }
{
    for watcher in watchers {
        let flag = &over[posts.len()];
        posts.push_reserved(post(scope, rt, watcher, news, flag));
    }
    posts
}

/// Raises all flags, and wakes the watchers, which look at them.
pub fn raise<R: Wait>(rt: &R, news: &News, flags: &[AtomicBool]) {
    for flag in flags {
        flag.store(true, Ordering::SeqCst);
    }
    news.call(rt);
}

/// The watcher of a post, once its thread has ended.
fn call_back<R: Threads>(rt: &R, post: Post) -> Watcher
    ensures { task_of result ≡ task_at (λ h. h.promise.watcher.value) post }
{
    match post {
        Ok(child) => child.join(rt),
        Err(watcher) => watcher,
    }
}

/// The watchers of all posts, in order.
pub fn call_all_back<R: Threads>(rt: &R, posts: Vec<Post>, mut back: Vec<Watcher>) -> Vec<Watcher>
    requires room { HasRoomFor (length posts.items) back }
    ensures { map task_of result.items ≡ map (λ p. task_at (λ h. h.promise.watcher.value) p) posts.items }
{
    for post in posts {
        back.push_reserved(call_back(rt, post));
    }
    back
}
