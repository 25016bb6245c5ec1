//! Workers in threads of this process, each at the far end of a line.
ghost use Rattle.std.specs.Prelude.{◌≡◌, ◌<◌, ◌≤◌, All, IfOk, length, vec_len};
ghost use Rattle.limits.specs.declared.TheConstants.{MAX_WORKERS};
ghost use Rattle.tcp_lines.specs.Lines.{unused};

use crate::line::{TcpLine, shut_down};
use crate::pairs::own_pair;
use byte_streams::Uncounted;
use limits::MAX_WORKERS;
use std::alloc::{AllocError, Global};
use std::marker::Model;
use std::net::{Net, TcpListener, TcpStream};
use std::thread::{self, JoinHandle, Threads};
use worker_engine::serve;

/// The threads of workers. Join them after their lines are dropped.
#[derive(Drop)]
pub struct Workers {
    threads: Vec<JoinHandle<()>>,
}

impl Model for Workers {
    ghost use Rattle.std.specs.Prelude.{ℕ, vec_len};

    ghost Value = { ℕ };

    ghost view = { λ s. vec_len s.threads };
}

impl Workers {
    /// Starts at most `count` workers in threads of their own, and returns the lines to them. The line at each index is
    /// to the worker of that number.
    ///
    /// [`own_pair`] makes each connection. A worker is left out if its connection can't be made or its thread can't be
    /// started. The call fails only if there is no memory for the two lists, before it starts anything. A worker's
    /// shards take memory of `Global`.
    pub fn start<R>(
        rt: &R,
        alloc: Global,
        count: u32,
    ) -> Result<(Vec<TcpLine>, Workers), AllocError>
    where
        R: Threads + Net<Listener = TcpListener, Stream = TcpStream> + Sync + Copy + Send + 'static,
        requires { count ≤ MAX_WORKERS }

        // There are as many lines as threads, and no more than requested. No line was used.
        ensures few { IfOk result (λ started. length started.0.items ≤ count) }
        ensures unused { IfOk result (λ started. All (λ line. line ≡ unused) started.0.items) }
        ensures threads { IfOk result (λ started. started.1 ≡ length started.0.items) }
    {
        let mut lines = Vec::with_capacity(alloc, count as usize)?;
        let mut threads = Vec::with_capacity(alloc, count as usize)?;
        for _ in 0..count {
            if let Some((line, far)) = own_pair(rt) {
                if let Some(thread) = start_one(rt, alloc, lines.len() as u32, far) {
                    lines.push_reserved(line);
                    threads.push_reserved(thread);
                }
            }
        }
        Ok((lines, Workers { threads }))
    }

    /// Waits until all threads have ended. Each does after its line is dropped.
    pub fn join<R: Threads>(self, rt: &R) {
        let Workers { threads } = self;
        for thread in threads {
            thread.join(rt);
        }
    }
}

// Starts a thread that serves the stream as the worker of this number, and then shuts it down and closes it.
fn start_one<R: Threads + Sync + Copy + Send + 'static>(
    rt: &R,
    alloc: Global,
    worker: u32,
    stream: TcpStream,
) -> Option<JoinHandle<()>>
    requires { worker < MAX_WORKERS }
{
    let own = *rt;
    let serves = move ||
        requires { worker < MAX_WORKERS }
    {
        let _served = serve(
            &own,
            alloc,
            worker,
            &mut Uncounted(&stream),
            &mut Uncounted(&stream),
        );
        shut_down(&stream);
    };
    thread::spawn(rt, serves).ok()
}
